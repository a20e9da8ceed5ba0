//! Building an executable from a text.

ghost use Rattle.std.specs.Prelude.{◌≡◌, length, take, IfOk, Ok};
ghost use Rattle.bounded.specs.Held.{entries, room, KeepsRest};
ghost use Rattle.executable.specs.Check.{contents, checked};
ghost use Rattle.assembler.specs.Assembled.{assembled, answer_of, output_of};
ghost use Rattle.builder.specs.Built.{text_parts, text_summary, numbers_of, summary_of, labels_left, labels_with, output_with};
ghost use Rattle.builder.specs.Standing.{ExactlyFirstOfAll};

use crate::summary::Summary;
use assembler::assemble::assemble;
use assembler::label::Label;
use assembler::question::Refusal;
use bounded::list::BoundedList;
use executable::check::check;
use executable::parts::Executable;

/// The numbers of an executable with a size in bytes.
fn summarize(size: usize, executable: Executable<'_>) -> Summary
    ensures { result ≡ numbers_of size (contents executable.entry) }
{
    Summary {
        length: size,
        code: executable.code.len() / 4,
        constants: executable.constants.len() / 4,
        first: executable.first,
        stack: executable.stack,
    }
}

/// Assembles a text, and tells the numbers of the executable. What is written is always accepted by the check, and its
/// parts are what the lines of the text say. After a 1 no label is left, after 2 to 10 those of the lines above the refused
/// one, and else all. A text is refused exactly by the first question with a no, where each line is asked by what stands
/// on the lines before it.
pub fn build(
    text: &[u8],
    labels: &mut BoundedList<Label>,
    out: &mut [u8],
) -> Result<Summary, Refusal>
    ensures value { result ≡ summary_of text.now (answer_of (assembled text.now (room labels.old) (length out.old))) }
    ensures labels { entries labels.new ≡ labels_left text.now (answer_of (assembled text.now (room labels.old) (length out.old))) }
    ensures output { out.new ≡ output_of (assembled text.now (room labels.old) (length out.old)) out.old }
    ensures accepted { IfOk result (λ s. checked (take s.length out.new) ≡ Ok (text_parts text.now)) }
    ensures numbers { IfOk result (λ s. s ≡ text_summary text.now) }
    ensures left { entries labels.new ≡ labels_with text.now result }
    ensures written { out.new ≡ output_with text.now result out.old }
    ensures rest { KeepsRest labels.old labels.new }
    ensures first { ExactlyFirstOfAll text.now (room labels.old) (length out.old) result }
{
    let length = assemble(text, labels, out)?;
    match check(&out[..length]) {
        Ok(executable) => Ok(summarize(length, executable)),
        Err(_) => unreachable(),
    }
}
