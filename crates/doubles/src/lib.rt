//! Doubles by their bits: IEEE 754's binary64.

#![tactic(auto)]

pub mod arithmetic;
pub mod comparison;
pub mod conversion;
