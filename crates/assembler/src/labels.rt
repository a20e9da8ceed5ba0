//! The entries of the label list.

ghost use Rattle.std.specs.Prelude.{◌≡◌, take, drop};
ghost use Rattle.assembler.specs.Labels.{name_in};

use crate::label::Label;

/// A part of a text, as much of it as there is.
fn part<'a>(text: &'a [u8], place: usize, length: usize) -> &'a [u8]
    ensures { result.now ≡ take length (drop place text.now) }
{
    let rest = &text[place.min(text.len())..];
    &rest[..length.min(rest.len())]
}

/// The name of an entry.
pub fn name_of<'a>(text: &'a [u8], label: Label) -> &'a [u8]
    ensures { result.now ≡ name_in text.now label }
{
    part(text, label.place.offset, label.length)
}
