//! Numerals: what number a word writes.

#![tactic(auto)]

pub mod integer;
pub mod natural;
