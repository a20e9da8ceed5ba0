//! Machines: loading an executable, running it, and looking at what it holds.

#![tactic(auto)]

pub mod comparison;
pub mod laws;
pub mod loaded;
pub mod loading;
pub mod refusal;
pub mod report;
pub mod request;
pub mod settings;
pub mod total;
