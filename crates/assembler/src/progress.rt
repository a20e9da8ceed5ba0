//! How far the first pass has come.

use crate::label::Label;
use crate::sizes::Sizes;

mod calls;

/// What the lines so far leave behind, besides their labels.
#[derive(Clone, Copy)]
pub(crate) struct Progress {
    /// A label waits: no command or constant has come after it.
    pub(crate) waiting: bool,
    /// There was a label, command or constant.
    pub(crate) begun: bool,
    /// There was a `uint32` or `string`.
    pub(crate) constants: bool,
    /// There was an `end`.
    pub(crate) ended: bool,
    /// The initial stack pointer, if there was a `stack`.
    pub(crate) stack: Option<u32>,
    /// How many words there are.
    pub(crate) sizes: Sizes,
}

/// What a line adds: its label's entry, and the progress after it.
#[derive(Clone, Copy)]
pub(crate) struct Judged {
    pub(crate) label: Option<Label>,
    pub(crate) progress: Progress,
}
