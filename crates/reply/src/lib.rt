//! What a command of the tool prints, and whether all that it was asked was done and agrees.

#![tactic(auto)]

pub mod line;
pub mod named;
pub mod permit_refusal;
pub mod played;
pub mod refusal;
pub mod reply;
pub mod run;
