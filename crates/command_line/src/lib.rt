//! The words of the command line of `karma`: the command that they give, or why they give none.

#![tactic(auto)]

pub mod command;
mod given;
pub mod help;
pub mod misuse;
mod option_name;
pub mod options;
mod reading;
#[cfg(test)]
mod tests;
pub mod topic;
