//! What each number of a refusal or a fault asks, in words.

#![tactic(auto)]

pub mod help;
pub mod page;
pub mod question;
