//! Making a record.

ghost use Rattle.std.specs.Prelude.{◌≡◌, true, is_ok, IfOk, Ok};
ghost use Rattle.executable.specs.Check.{checked};
ghost use Rattle.play.specs.Watched.{Hears};
ghost use Rattle.play.specs.Whole.{shown};
ghost use Rattle.record.specs.Filing.{after_assembling, after_playing, contents_with, inputs_of, page_text, shown_made, told_of_filing, Files, ReplayAgrees};
ghost use Rattle.record.specs.Opened.{opened};
ghost use Rattle.record.specs.declared.file.FileError.TheVariants.{Memory, Permit};
ghost use Rattle.tasks.specs.Listing.{listed_whole};

use crate::replay::orders;
use assembler::question::Refusal;
use permit_text::error::PermitError;
use permit_text::read::read_permit;
use play::play::play;
use play::played::Played;
use play::watch::Watch;
use run_pages::run::run_page;
use std::alloc::{AllocError, Global};
use tasks::assembling::{AssembleError, assemble_source};
use tasks::listing_page::list_page;

/// What a record is made of: the source, the tape of readings, the permit file, and the text with which the page begins.
#[derive(Clone, Copy)]
pub struct Inputs<'a> {
    pub source: &'a [u8],
    pub readings: &'a [u8],
    pub permit: &'a [u8],
    pub preamble: &'a [u8],
}

/// The files of a record that are made; its readings and its permit are those that were given.
#[derive(Drop)]
pub struct Made {
    pub executable: Vec<u8>,
    pub listing: Vec<u8>,
    pub page: Vec<u8>,
    pub labels: usize,
    /// What the run gave; the results are on its tape.
    pub played: Played,
}

/// Why no record is made.
#[derive(Clone, Copy)]
pub enum FileError {
    /// 1 to 13: the source is not assembled.
    Source(Refusal),
    /// The permit is not read.
    Permit(PermitError),
    /// The program is not run.
    Run(play::refusal::Refusal),
    /// There is no memory.
    Memory,
}

impl From<AllocError> for FileError {
    ghost from_gives = { λ _ error. error ≡ Memory };

    fn from(_: AllocError) -> FileError {
        FileError::Memory
    }
}

impl From<AssembleError> for FileError {
    ghost from_gives = { λ cause error. error ≡ after_assembling cause };

    fn from(cause: AssembleError) -> FileError {
        match cause {
            AssembleError::Refused(refusal) => FileError::Source(refusal),
            AssembleError::Memory => FileError::Memory,
        }
    }
}

impl From<PermitError> for FileError {
    ghost from_gives = { λ cause error. error ≡ Permit cause };

    fn from(cause: PermitError) -> FileError {
        FileError::Permit(cause)
    }
}

impl From<play::refusal::Refusal> for FileError {
    ghost from_gives = { λ cause error. error ≡ after_playing cause };

    fn from(cause: play::refusal::Refusal) -> FileError {
        match cause {
            play::refusal::Refusal::Memory => FileError::Memory,
            refusal => FileError::Run(refusal),
        }
    }
}

/// The listing of an executable that a text was assembled to; it is never refused.
fn listing_of(heap: Global, executable: &[u8]) -> Result<Vec<u8>, AllocError>
    requires { is_ok (checked executable.now) ≡ true }
    ensures { IfOk result (λ page. listed_whole executable.now ≡ Ok page.items) }
{
    match list_page(heap, executable) {
        Ok(page) => Ok(page),
        Err(_) => Err(AllocError),
    }
}

/// The page of a record: the preamble, and then what the run came to.
fn page_of(heap: Global, preamble: &[u8], played: &Played) -> Result<Vec<u8>, AllocError>
    ensures { IfOk result (λ page. page.items ≡ page_text preamble.now (shown played.now)) }
{
    let facts = run_page(heap, played.report, played.taken, played.written)?;
    let mut page = Vec::from_slice(heap, preamble)?;
    page.extend_from_slice(facts.as_bytes())?;
    Ok(page)
}

/// Assembles the source, reads the permit, lists the executable, and runs it over the readings.
fn make<W: Watch>(heap: Global, inputs: &Inputs<'_>, watch: &mut W) -> Result<Made, FileError>
    ensures filed { Files (inputs_of inputs.now) result }
    ensures heard { Hears W.hears (told_of_filing (inputs_of inputs.now)) result watch.old watch.new }
{
    let assembled = assemble_source(heap, inputs.source)?;
    let permit = read_permit(inputs.permit)?;
    let listing = listing_of(heap, assembled.bytes.as_slice())?;
    let orders = orders(assembled.bytes.as_slice(), inputs.readings, &permit);
    let played = play(heap, &orders, watch)?;
    let page = page_of(heap, inputs.preamble, &played)?;
    Ok(Made {
        executable: assembled.bytes,
        listing,
        page,
        labels: assembled.labels.len(),
        played,
    })
}

/// Makes a record. Opened again, with the readings and the permit that it was made of, all of it agrees.
pub fn file<W: Watch>(heap: Global, inputs: &Inputs<'_>, watch: &mut W) -> Result<Made, FileError>
    ensures filed { Files (inputs_of inputs.now) result }
    ensures heard { Hears W.hears (told_of_filing (inputs_of inputs.now)) result watch.old watch.new }
    ensures replays { IfOk result (λ made. ReplayAgrees (opened (contents_with (inputs_of inputs.now) (shown_made made)))) }
{
    make(heap, inputs, watch)
}
