//! The listing: the assembler text of an executable.

#![tactic(auto)]

mod line;
pub mod list;
pub mod printout;
mod put;
pub mod refusal;
pub mod word_text;
