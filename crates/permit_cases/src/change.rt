//! Changes of a permit.

use anyhow::{Context, anyhow};
use permit::permit::Permit;
use permit::refusal::Refusal;
use std::str::FromStr;

/// A change of a permit, by any numbers.
#[derive(Clone, Copy)]
pub(crate) enum Change {
    Register(u64, u64),
    Segment(u64, u64),
    Stack(u64),
}

impl FromStr for Change {
    type Err = anyhow::Error;

    fn from_str(word: &str) -> anyhow::Result<Change> {
        let (part, numbers) = word.split_once('=').context("a change has no number")?;
        match part {
            "register" => {
                let (register, level) = pair_of(numbers)?;
                Ok(Change::Register(register, level))
            }
            "segment" => {
                let (segment, level) = pair_of(numbers)?;
                Ok(Change::Segment(segment, level))
            }
            "stack" => Ok(Change::Stack(numbers.parse()?)),
            _ => Err(anyhow!("a change names no part")),
        }
    }
}

/// The two numbers of a change of a level.
fn pair_of(numbers: &str) -> anyhow::Result<(u64, u64)> {
    let (part, level) = numbers.split_once(':').context("a change has no level")?;
    Ok((part.parse()?, level.parse()?))
}

impl Change {
    /// Makes the change, or is refused.
    pub(crate) fn make(self, permit: &mut Permit) -> Result<(), Refusal> {
        match self {
            Change::Register(register, level) => permit.set_register(register, level),
            Change::Segment(segment, level) => permit.set_segment(segment, level),
            Change::Stack(words) => permit.set_stack(words),
        }
    }
}
