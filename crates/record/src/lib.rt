//! Records: a program with its listing, its readings, its permit and its results, filed and opened again.

#![tactic(auto)]

pub mod contents;
pub mod file;
pub mod finding;
pub mod replay;
