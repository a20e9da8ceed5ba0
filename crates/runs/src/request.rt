//! What is asked of a machine, and what it answers.

use crate::refusal::CallRefusal;
use crate::report::Report;
use permit::permit::Permit;

/// A run of so many steps at most, or a look at a register, at the flags, or at a cell.
#[derive(Clone, Copy)]
pub enum Call {
    Run(u64),
    Register(u64),
    Flags,
    Cell(u64),
}

/// Some cells of a memory: `len` of them from `start` on, or as many as there are.
#[derive(Clone, Copy)]
pub struct Part {
    pub start: usize,
    pub len: usize,
}

/// The memory that is handed to a call: the machine's own, or a part of another one. A part that is not as long as the
/// machine's memory at loading is refused by every call that uses cells.
#[derive(Clone, Copy)]
pub enum Memory {
    Own,
    Other(Part),
}

/// A call, and the memory that is handed in.
#[derive(Clone, Copy)]
pub struct Request {
    pub call: Call,
    pub memory: Memory,
}

/// A request, and the permit under which it is answered.
#[derive(Clone, Copy)]
pub struct PermittedRequest {
    pub request: Request,
    pub permit: Permit,
}

/// What a machine answers.
#[derive(Clone, Copy, PartialEq, Eq)]
pub enum Answer {
    /// A run was taken.
    Ran(Report),
    /// What a register, the flags or a cell hold.
    Saw(u32),
    /// The call was refused, and changed nothing.
    Refused(CallRefusal),
}
