//! Assembling.

ghost use Rattle.std.specs.Prelude.{◌≡◌, length};
ghost use Rattle.bounded.specs.Held.{entries, room, KeepsRest};
ghost use Rattle.output.specs.Overlay.{Wrote};
ghost use Rattle.assembler.specs.Addresses.{LowLabels};
ghost use Rattle.assembler.specs.Assembled.{assembled, answer_of, labels_of, output_of, executable_in};
ghost use Rattle.assembler.specs.First.{ExactlyFirstNo};
ghost use Rattle.assembler.specs.Progress.{progress_of};

use crate::emit::{find_lost, find_start, put_header, put_words};
use crate::label::Label;
use crate::pass::first_pass;
use crate::progress::Progress;
use crate::question::{Question, Refusal};
use crate::symbols::Symbols;
use crate::text::is_text;
use bounded::list::BoundedList;
use output::writer::Writer;

/// Writes the executable, and answers its length.
fn put_executable(symbols: Symbols, progress: Progress, out: &mut [u8]) -> usize
    requires { LowLabels symbols.labels.now }
    ensures { Wrote out.old 0 (executable_in symbols.entry.text.now symbols.entry.labels.now (progress_of progress)) result out.new }
{
    let first = find_start(symbols);
    let mut writer = Writer::new(out);
    put_header(&mut writer, progress.sizes, first, progress.stack_pointer());
    put_words(&mut writer, symbols);
    writer.len()
}

/// Asks the questions in their order, and writes the executable where none gets a no.
fn assemble_text(
    text: &[u8],
    labels: &mut BoundedList<Label>,
    out: &mut [u8],
) -> Result<usize, Refusal>
    ensures value { result ≡ answer_of (assembled text.now (room labels.old) (length out.old)) }
    ensures labels { entries labels.new ≡ labels_of (assembled text.now (room labels.old) (length out.old)) }
    ensures output { out.new ≡ output_of (assembled text.now (room labels.old) (length out.old)) out.old }
    ensures rest { KeepsRest labels.old labels.new }
{
    labels.clear();
    if !is_text(text) {
        return Err(Question::Text.into());
    }
    let progress = first_pass(text, labels)?;
    if !progress.ended {
        return Err(Question::End.into());
    }
    let symbols = Symbols {
        text,
        labels: labels.as_slice(),
    };
    if let Some(line) = find_lost(symbols) {
        return Err(Refusal::on_line(Question::Defined, line));
    }
    if 512 + 4 * (progress.sizes.total() as usize) > out.len() {
        return Err(Question::Output.into());
    }
    Ok(put_executable(symbols, progress, out))
}

/// Assembles a text: the executable is written to `out`, and its length is answered. The labels are entered into the
/// list, which is emptied first. A text is refused exactly by the first question with a no.
pub fn assemble(
    text: &[u8],
    labels: &mut BoundedList<Label>,
    out: &mut [u8],
) -> Result<usize, Refusal>
    ensures value { result ≡ answer_of (assembled text.now (room labels.old) (length out.old)) }
    ensures labels { entries labels.new ≡ labels_of (assembled text.now (room labels.old) (length out.old)) }
    ensures output { out.new ≡ output_of (assembled text.now (room labels.old) (length out.old)) out.old }
    ensures rest { KeepsRest labels.old labels.new }
    ensures first { ExactlyFirstNo text.now (room labels.old) (length out.old) result }
{
    assemble_text(text, labels, out)
}
