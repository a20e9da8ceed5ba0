//! Listing and assembling together: rebuilding an executable from its listing, and telling executables apart by theirs.

#![tactic(auto)]

pub mod assembles_back;
pub mod compare;
mod page;
pub mod rebuild;
pub mod refusal;
pub mod tells_apart;
