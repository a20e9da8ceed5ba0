//! The records of a sheet.

use crate::units::CaseUnit;
use anyhow::Context;
use host::record::Record;

impl CaseUnit for Record {
    const FILLER: Record = Record { kind: 9, value: 9 };

    fn read_all(rt: &HostRuntime, text: &str) -> anyhow::Result<Vec<Record>> {
        let mut records = Vec::new(rt.alloc());
        if text == "-" {
            return Ok(records);
        }
        for part in text.split(',') {
            let (kind, value) = part.split_once(':').context("a record has no value")?;
            records.push(Record {
                kind: kind.parse()?,
                value: u64::from_str_radix(value, 16)?,
            })?;
        }
        Ok(records)
    }

    fn show_all(rt: &HostRuntime, units: &[Record]) -> anyhow::Result<()> {
        print!(rt; "  written")?;
        for Record { kind, value } in units {
            print!(rt; " {kind}:{value:x}")?;
        }
        println!(rt; "")?;
        Ok(())
    }
}
