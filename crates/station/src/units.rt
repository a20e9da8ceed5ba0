//! The units that results are printed in.

use host::code_unit::CodeUnit;
use host::record::Record;

/// A unit that can be printed.
pub(crate) trait ShownUnit: CodeUnit {
    /// What a lent place holds at first.
    const BLANK: Self;

    /// Prints units.
    fn show(rt: &HostRuntime, units: &[Self]) -> anyhow::Result<()>;
}

impl ShownUnit for u8 {
    const BLANK: u8 = 0;

    fn show(rt: &HostRuntime, units: &[u8]) -> anyhow::Result<()> {
        let digits = hex::encode(rt.alloc(), units)?;
        println!(rt; "  results {digits}")?;
        Ok(())
    }
}

impl ShownUnit for Record {
    const BLANK: Record = Record { kind: 0, value: 0 };

    fn show(rt: &HostRuntime, units: &[Record]) -> anyhow::Result<()> {
        print!(rt; "  results")?;
        for Record { kind, value } in units {
            print!(rt; " {kind}:{value:x}")?;
        }
        println!(rt; "")?;
        Ok(())
    }
}
