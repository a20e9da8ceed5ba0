//! The executable file: its header, its check and its parts.

#![tactic(auto)]

pub mod check;
mod header;
pub mod parts;
pub mod refusal;
pub mod segment;
pub mod word;
