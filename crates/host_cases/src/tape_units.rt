//! The bytes of a tape.

use crate::units::CaseUnit;
use anyhow::anyhow;

impl CaseUnit for u8 {
    const FILLER: u8 = 0xaa;

    fn read_all(rt: &HostRuntime, text: &str) -> anyhow::Result<Vec<u8>> {
        if text == "-" {
            return Ok(Vec::new(rt.alloc()));
        }
        if !text.chars().all(|digit| digit.is_ascii_hexdigit()) {
            return Err(anyhow!("a tape has a wrong digit"));
        }
        // a last digit without a second one is no byte
        let (pairs, _) = text.as_bytes().as_chunks::<2>();
        Ok(hex::decode(rt.alloc(), pairs.as_flattened())?)
    }

    fn show_all(rt: &HostRuntime, units: &[u8]) -> anyhow::Result<()> {
        let digits = hex::encode(rt.alloc(), units)?;
        println!(rt; "  written {digits}")?;
        Ok(())
    }
}
