//! What a whole run gives.

use runs::loaded::Machine;
use runs::report::Report;

/// How a run ended, how many items it took and how many it wrote, the tape of these, the machine after it, and the word at the
/// machine's r15, if there is one.
#[derive(Drop)]
pub struct Played {
    pub report: Report,
    pub taken: usize,
    pub written: usize,
    pub results: Vec<u8>,
    pub machine: Machine,
    pub word: Option<u32>,
}
