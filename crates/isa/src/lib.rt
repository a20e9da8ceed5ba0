//! The instruction set: opcodes, registers, operands, and the 32-bit words that commands are.

#![tactic(auto)]

pub mod address;
pub mod command;
pub mod fetched;
pub mod form;
pub mod immediate;
pub mod opcode;
pub mod operands;
pub mod register;
mod word;
