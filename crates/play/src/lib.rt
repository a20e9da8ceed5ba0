//! Whole runs: a program with its readings, from loading to its results.

#![tactic(auto)]

pub mod comparing;
pub mod orders;
pub mod play;
pub mod played;
mod prepared;
mod readings;
pub mod refusal;
mod taken;
pub mod trace;
pub mod watch;
mod watched;
