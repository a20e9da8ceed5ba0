//! How a run ends.

use machine::fault::Fault;

/// How a run ends.
#[derive(Clone, Copy, PartialEq, Eq)]
pub enum Ending {
    /// The budget is used up.
    Spent,
    /// The program halted; another run may go on from there.
    Halted,
    /// The program has exited with a code; no later run is taken.
    Exited(u32),
    /// A step was not taken; a later run tries it again.
    Fault(Fault),
}

/// How many steps a run took, and how it ended. A step that faulted is not counted.
#[derive(Clone, Copy, PartialEq, Eq)]
pub struct Report {
    pub steps: u32,
    pub ending: Ending,
}
