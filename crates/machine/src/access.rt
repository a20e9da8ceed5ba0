//! What is done to a register or a cell.

/// An access.
#[derive(Clone, Copy)]
pub enum Access {
    Reading,
    Writing,
}
