//! Hosts: the side that gives a program its readings and takes its results.

#![tactic(auto)]

pub mod code_unit;
pub mod found;
pub mod host;
pub mod item;
pub mod lent_host;
pub mod record;
pub mod refusal;
pub mod room;
pub mod sheet;
pub mod tape;
pub mod transcript;
