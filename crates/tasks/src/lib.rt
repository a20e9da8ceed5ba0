//! The work of a tool for Karma programs, on bytes: assembling a text, listing an executable, checking a filed listing,
//! comparing two executables.

#![tactic(auto)]

pub mod assembling;
pub mod checking;
pub mod difference;
pub mod listing_page;
pub mod sameness;
#[cfg(test)]
mod tests;
