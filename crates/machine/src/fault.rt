//! Faults: steps that were not taken.

use crate::cause::Cause;

/// Why a step was not taken, and the address of its word.
#[derive(Clone, Copy, PartialEq, Eq)]
pub struct Fault {
    pub cause: Cause,
    pub address: u32,
}
