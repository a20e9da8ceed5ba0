//! A list that never outgrows the slice lent for it, written once for entries of any type.

#![tactic(auto)]

pub mod list;
