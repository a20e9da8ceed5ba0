//! The processor: its state, and one step of it.

#![tactic(auto)]

mod access;
pub mod cause;
mod commands;
mod execute;
pub mod fault;
pub mod flags;
pub mod laws;
pub mod layout;
mod operation;
mod pair;
pub mod processor;
pub mod rules;
mod step;
pub mod turn;
