//! Writing into an output that the caller lends.

#![tactic(auto)]

pub mod writer;
