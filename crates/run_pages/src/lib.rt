//! The pages that tell of a run: how it ended, what faulted, what the machine holds, and which steps were taken.

#![tactic(auto)]

mod changes;
mod command;
pub mod dump;
pub mod ending;
pub mod fault;
pub mod run;
pub mod step;
pub mod steps;
#[cfg(test)]
mod tests;
