//! What the commands assemble, list, check, same, tape show, tape make and help print.

#![tactic(auto)]

pub mod assembling;
pub mod checking;
pub mod helping;
pub mod listed;
pub mod sameness;
pub mod tapes;
