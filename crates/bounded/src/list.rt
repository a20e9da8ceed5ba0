//! The list and what it keeps true.

ghost use Rattle.std.specs.Prelude.{◌≤◌, length};

pub mod calls;

/// A list in a slice that the caller lends: its entries are the first `len` items there, and the slice's length is the
/// most that it can have.
#[derive(Drop)]
pub struct BoundedList<'a, T> {
    items: &'a mut [T],
    len: usize,
    ghost within: { len ≤ length items.now },
}

/// There is no free entry.
#[derive(Clone, Copy)]
pub struct Full;
