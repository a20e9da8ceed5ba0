//! The lines of a text that are still to come.

ghost use Rattle.std.specs.Prelude.{◌+◌, ◌<◌, ◌≤◌, ◌^◌, length};
ghost use Rattle.std.specs.Option.{ForSome};

pub mod calls;

/// A line of a text, up to its comment.
#[derive(Clone, Copy)]
pub struct Line<'a> {
    /// From 1.
    pub number: usize,
    /// Where it begins in the text.
    pub place: usize,
    /// What stands before its comment.
    pub code: &'a [u8],
    ghost placed: { place + length code.now < 2 ^ 63 },
}

/// The lines of what is left of a text, which begins at a place of the text. Past the last line nothing is left.
#[derive(Drop)]
pub struct Lines<'a> {
    rest: Option<&'a [u8]>,
    place: usize,
    number: usize,
    ghost placed: { ForSome rest (λ r. place + length r.now < 2 ^ 63) },
    ghost counted: { ForSome rest (λ _. number ≤ place + 1) },
}
