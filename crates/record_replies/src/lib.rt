//! What the tool prints where it makes a record, and where it opens one.

#![tactic(auto)]

pub mod filing;
mod listing_lines;
pub mod names;
pub mod preamble;
pub mod replaying;
mod run_lines;
