//! What the programs over tables of cases share: reading a case's words, making its bytes, and judging what came.

#![tactic(auto)]

pub mod bytes;
pub mod filled;
pub mod sum;
#[cfg(test)]
mod tests;
pub mod words;
