//! Assembling a text, and the facts of its executable.

ghost use Rattle.std.specs.Prelude.{◌≡◌, IfErr, IfOk, length, string_bytes, take, vec_len};
ghost use Rattle.bounded.specs.Held.{entries, room};
ghost use Rattle.builder.specs.Standing.{ExactlyFirstOfAll};
ghost use Rattle.tasks.specs.Assembling.{Assembles, HasRoom, Makes, NotByRoom, RefusesFirst, fact_lines, made};
ghost use Rattle.tasks.specs.declared.assembling.AssembleError.TheVariants.{Refused, Memory};

use assembler::label::{Label, Place};
use assembler::question::Refusal;
use bounded::list::BoundedList;
use builder::build::build;
use builder::summary::Summary;
use std::alloc::{AllocError, Global};

/// How many label entries are lent: one for each word that an executable can have, one for a label that waits for its word,
/// and one that stays free, so that the question about free entries always gets a yes.
pub const LABEL_ENTRIES: usize = 65_538;

/// The length of the longest executable: the header and 65,536 words.
pub const LONGEST_EXECUTABLE: usize = 262_656;

/// An executable that a text was assembled to.
#[derive(Drop)]
pub struct Assembled {
    pub bytes: Vec<u8>,
    /// Its numbers.
    pub summary: Summary,
    /// The labels of the text, in their order.
    pub labels: Vec<Label>,
}

/// Why a text is not assembled.
#[derive(Clone, Copy)]
pub enum AssembleError {
    /// A question gets a no.
    Refused(Refusal),
    /// There is no memory.
    Memory,
}

impl From<Refusal> for AssembleError {
    ghost from_gives = { λ refusal error. error ≡ Refused refusal };

    fn from(refusal: Refusal) -> AssembleError {
        AssembleError::Refused(refusal)
    }
}

impl From<AllocError> for AssembleError {
    ghost from_gives = { λ _ error. error ≡ Memory };

    fn from(_: AllocError) -> AssembleError {
        AssembleError::Memory
    }
}

/// The label entries that are lent.
fn new_entries(heap: Global) -> Result<Vec<Label>, AllocError>
    ensures { IfOk result (λ entries. vec_len entries ≡ LABEL_ENTRIES) }
{
    let none = Label {
        place: Place::at(0),
        length: 0,
        address: 0,
    };
    vec![in heap; none; LABEL_ENTRIES]
}

/// An output with room for every executable.
fn new_output(heap: Global) -> Result<Vec<u8>, AllocError>
    ensures { IfOk result (λ out. vec_len out ≡ LONGEST_EXECUTABLE) }
{
    vec![in heap; 0u8; LONGEST_EXECUTABLE]
}

/// Assembles a text into an output with room for every executable, and answers the numbers of the executable.
fn assemble_onto(
    text: &[u8],
    labels: &mut BoundedList<Label>,
    out: &mut [u8],
) -> Result<Summary, Refusal>
    requires entries { room labels.old ≡ LABEL_ENTRIES }
    requires out { length out.old ≡ LONGEST_EXECUTABLE }
    ensures made { IfOk result (λ s. Makes text.now (take s.length out.new) s (entries labels.new)) }
    ensures refused { IfErr result (λ refusal. made text.now ≡ Err refusal) }
    ensures first { ExactlyFirstOfAll text.now LABEL_ENTRIES LONGEST_EXECUTABLE result }
    ensures room { IfErr result (λ refusal. NotByRoom refusal.question) }
{
    build(text, labels, out)
}

/// Assembles a text. The check accepts what comes of it, with the parts that the lines of the text say. A text is refused
/// exactly by the first question with a no, where each line is asked by what stands on the lines before it, and never for
/// want of a free label entry or of output.
pub fn assemble_source(heap: Global, text: &[u8]) -> Result<Assembled, AssembleError>
    ensures answer { Assembles text.now result }
    ensures first { RefusesFirst text.now result }
    ensures room { HasRoom result }
{
    let mut entries = new_entries(heap)?;
    let mut labels = BoundedList::new(entries.as_mut_slice());
    let mut bytes = new_output(heap)?;
    let summary = assemble_onto(text, &mut labels, bytes.as_mut_slice())?;
    bytes.truncate(summary.length);
    Ok(Assembled {
        bytes,
        summary,
        labels: Vec::from_slice(heap, labels.as_slice())?,
    })
}

/// The lines that tell of an executable, and how many labels its text has.
pub fn facts_page(heap: Global, summary: Summary, labels: usize) -> Result<String, AllocError>
    ensures { IfOk result (λ page. string_bytes page ≡ fact_lines summary labels) }
{
    let Summary {
        code,
        constants,
        first,
        stack,
        ..
    } = summary;
    format!(in heap;
        "code {code}\nconstants {constants}\nfirst {first}\nstack {stack}\nlabels {labels}\n"
    )
}
