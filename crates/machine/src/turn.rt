//! What comes after a step that was taken.

/// Whether a step ends a run.
#[derive(Clone, Copy)]
pub enum Turn {
    /// The next step.
    Next,
    /// Nothing, until a later run.
    Halted,
    /// Nothing any more; the program has exited with a code.
    Exited(u32),
}
