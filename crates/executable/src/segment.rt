//! The segments of an executable.

/// Where a word stands in an executable.
#[derive(Clone, Copy)]
pub enum Segment {
    Code,
    Constants,
}
