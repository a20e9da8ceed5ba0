//! The listing call.

ghost use Rattle.std.specs.Prelude.{◌≡◌, map, length};
ghost use Rattle.std.specs.List.{flat_map};
ghost use Rattle.executable.specs.Bytes.{words_of};
ghost use Rattle.executable.specs.Check.{contents};
ghost use Rattle.listing.specs.Lines.{line_text, word_line};
ghost use Rattle.listing.specs.Listing.{listing, listed, length_of, output_after, OnlyFirstNo};
ghost use Rattle.output.specs.Overlay.{Wrote};
ghost use Rattle.output.specs.Writes.{Put};

use crate::line::{put_number_line, put_word};
use crate::refusal::Refusal;
use executable::check::check;
use executable::parts::Executable;
use executable::segment::Segment;
use output::writer::Writer;

/// Writes a line for each word of a segment.
fn put_segment(writer: &mut Writer<'_>, segment: Segment, bytes: &[u8])
    ensures { Put writer.old (flat_map line_text (map (word_line segment) (words_of bytes.now))) writer.new }
{
    let (words, _) = bytes.as_chunks();
    for word in words {
        put_word(writer, segment, u32::from_le_bytes(*word));
    }
}

/// Writes what fits of a listing, and answers its whole length.
fn put_listing(out: &mut [u8], executable: Executable<'_>) -> usize
    ensures { Wrote out.old 0 (listing (contents executable.entry)) result out.new }
{
    let mut writer = Writer::new(out);
    put_number_line(&mut writer, b"stack", executable.stack);
    put_segment(&mut writer, Segment::Code, executable.code);
    put_segment(&mut writer, Segment::Constants, executable.constants);
    put_number_line(&mut writer, b"end", executable.first);
    writer.len()
}

/// Writes the listing of an executable, and answers its length, or the first of refusals 20 to 27.
/// Past the listing the output is as it was, and a refusal leaves all of it.
pub fn list(bytes: &[u8], out: &mut [u8]) -> Result<usize, Refusal>
    ensures value { result ≡ length_of (listed bytes.now (length out.old)) }
    ensures output { out.new ≡ output_after (listed bytes.now (length out.old)) out.old }
    ensures first { OnlyFirstNo bytes.now (length out.old) result }
{
    let executable = check(bytes)?;
    let length = put_listing(&mut [], executable);
    if length > out.len() {
        return Err(Refusal::OutputTooShort);
    }
    Ok(put_listing(out, executable))
}
