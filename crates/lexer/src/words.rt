//! The words of a line that are still to come.

ghost use Rattle.std.specs.Prelude.{◌+◌, ◌<◌, ◌^◌, length};
ghost use Rattle.lexer.specs.Text.{code_words};

pub mod calls;

/// The words of what is left of a line, which begins at a place of the text.
#[derive(Clone, Copy)]
pub struct Words<'a> {
    rest: &'a [u8],
    place: usize,
    line: usize,
    ghost placed: { place + length rest.now < 2 ^ 63 },
    ghost counted: { length (code_words rest.now) < 2 ^ 64 },
}
