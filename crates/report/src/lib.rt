//! What the assembling program prints.

#![tactic(auto)]

mod label;
pub mod meaning;
pub mod refused;
pub mod success;
#[cfg(test)]
mod tests;
