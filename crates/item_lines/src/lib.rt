//! Items as lines of text, and back.

#![tactic(auto)]

pub mod line;
pub mod make;
pub mod read;
mod reading;
pub mod show;
pub mod tape;
