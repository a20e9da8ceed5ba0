//! Two machines that are asked the same.

use crate::loaded::Machine;
use crate::request::Request;
use permit::permit::Permit;

/// A request of two machines, and the permit under which each of them answers it.
#[derive(Clone, Copy)]
pub struct Pairing {
    pub request: Request,
    pub first: Permit,
    pub second: Permit,
}

/// Whether two machines answer the same.
#[derive(Clone, Copy)]
pub enum Outcome {
    /// All their answers are the same.
    Same,
    /// At a request the first machine met a permit fault after some steps. Given these steps as its budget, the second was
    /// spent after as many.
    PermitFault { at: usize, steps: u32 },
    /// Their answers to a request differ.
    Different { at: usize },
}

/// What came of it, how many calls both answered alike before that, and the two machines after it.
#[derive(Clone, Copy)]
pub struct Comparison {
    pub outcome: Outcome,
    pub agreed: usize,
    pub first: Machine,
    pub second: Machine,
}
