//! Building: assembling a text, and telling what the executable holds.

#![tactic(auto)]

pub mod build;
pub mod summary;
