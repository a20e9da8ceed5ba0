//! The assembler: a text becomes an executable, or is refused.

#![tactic(auto)]

pub mod assemble;
mod characters;
mod effect;
mod emit;
mod heading;
mod judge;
pub mod label;
pub mod labels;
mod line;
pub mod mnemonic;
mod operand;
mod pass;
mod progress;
pub mod question;
mod read;
mod reserved;
mod sizes;
pub mod statement;
mod symbols;
mod target;
mod text;
