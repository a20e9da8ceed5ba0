//! The text of one word, as its line in a listing has it.

ghost use Rattle.std.specs.Prelude.{◌≡◌, IfOk};
ghost use Rattle.listing.specs.Lines.{blank_joined, line_text, word_line};
ghost use Rattle.output.specs.Overlay.{Wrote};

use crate::line::put_word;
use executable::segment::Segment;
use output::writer::Writer;
use std::alloc::{AllocError, Global};

/// No line is longer.
const LONGEST: usize = 31;

/// Writes what fits of the line of a word, and answers its whole length.
fn put_line(out: &mut [u8], segment: Segment, word: u32) -> usize
    ensures { Wrote out.old 0 (line_text (word_line segment word)) result out.new }
{
    let mut writer = Writer::new(out);
    put_word(&mut writer, segment, word);
    writer.len()
}

/// The text of the line that lists a word, without the line end.
pub fn word_text(heap: Global, segment: Segment, word: u32) -> Result<Vec<u8>, AllocError>
    ensures { IfOk result (λ text. text.items ≡ blank_joined (word_line segment word)) }
{
    let mut line = [0u8; LONGEST];
    let length = put_line(&mut line, segment, word);
    Vec::from_slice(heap, &line[..length - 1])
}
