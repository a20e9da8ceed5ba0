//! Permit files: a permit as lines of text.

#![tactic(auto)]

pub mod error;
pub mod read;
mod setting;
#[cfg(test)]
mod tests;
mod words;
