//! What the commands run and compare of the tool print.

#![tactic(auto)]

pub mod asked;
pub mod comparing;
mod parting;
mod permits;
pub mod running;
pub mod wishes;
