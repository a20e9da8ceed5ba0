//! Opening a record.

ghost use Rattle.std.specs.Prelude.{◌≡◌, IfOk};
ghost use Rattle.permit.specs.Rights.{rights_of};
ghost use Rattle.play.specs.Watched.{Hears};
ghost use Rattle.play.specs.Whole.{orders_of};
ghost use Rattle.play.specs.Whole as playing;
ghost use Rattle.record.specs.Opened.{after_listing, agrees, contents_of, orders_for, rerun_of, run_found, shown, shown_rerun, shown_run, told_of_opening, told_of_rerun, Replays};
ghost use Rattle.record.specs.declared.replay.ReplayError.TheVariants.{Memory};

use crate::contents::Contents;
use crate::finding::{Finding, compare_tapes, compare_texts};
use listing::refusal::Refusal;
use permit::permit::Permit;
use permit_text::error::PermitError;
use permit_text::read::read_permit;
use play::orders::Orders;
use play::play::play;
use play::played::Played;
use play::watch::Watch;
use run_pages::run::run_page;
use std::alloc::{AllocError, Global};
use tasks::listing_page::{ListError, list_page};

/// Why a record is not opened.
#[derive(Clone, Copy)]
pub enum ReplayError {
    /// 20 to 26: its program is no executable.
    Executable(Refusal),
    /// There is no memory.
    Memory,
}

impl From<AllocError> for ReplayError {
    ghost from_gives = { λ _ error. error ≡ Memory };

    fn from(_: AllocError) -> ReplayError {
        ReplayError::Memory
    }
}

impl From<ListError> for ReplayError {
    ghost from_gives = { λ cause error. error ≡ after_listing cause };

    fn from(cause: ListError) -> ReplayError {
        match cause {
            ListError::Refused(refusal) => ReplayError::Executable(refusal),
            ListError::Memory => ReplayError::Memory,
        }
    }
}

/// Why the program of a record is not run.
#[derive(Clone, Copy)]
pub enum RunError {
    /// Its permit is not read.
    Permit(PermitError),
    /// It is not run under it.
    Run(play::refusal::Refusal),
}

/// What running a record's program again gives, and how the record compares with it.
#[derive(Drop)]
pub struct Rerun {
    pub played: Played,
    /// The filed results beside those of the run.
    pub results: Finding,
    /// Whether the filed page ends with what the run comes to.
    pub page: bool,
}

/// What is found of a record whose program is an executable.
#[derive(Drop)]
pub struct Opened {
    /// The filed listing beside that of the program.
    pub listing: Finding,
    pub run: Result<Rerun, RunError>,
}

impl Opened {
    /// Whether all of the record agrees.
    pub fn agrees(&self) -> bool
        ensures { result ≡ agrees (shown self.now) }
    {
        match &self.run {
            Ok(rerun) => {
                matches!(self.listing, Finding::Agrees)
                    && matches!(rerun.results, Finding::Agrees)
                    && rerun.page
            }
            Err(_) => false,
        }
    }
}

/// What every record is run by: its own parts, and the most of everything.
pub(crate) fn orders<'a>(executable: &'a [u8], readings: &'a [u8], permit: &'a Permit) -> Orders<'a>
    ensures { orders_of result ≡ orders_for executable.now readings.now (rights_of permit.now) }
{
    Orders {
        executable,
        readings,
        permit,
        budget: 100_000_000,
        cells: 1_048_576,
        writes: 65_536,
    }
}

/// Compares what is filed with what a run gave.
fn compare(heap: Global, contents: &Contents<'_>, played: Played) -> Result<Rerun, AllocError>
    ensures { IfOk result (λ r. shown_rerun r ≡ rerun_of (contents_of contents.now) (playing.shown played)) }
{
    let results = compare_tapes(heap, contents.results, played.results.as_slice())?;
    let facts = run_page(heap, played.report, played.taken, played.written)?;
    let page = contents.page.ends_with(facts.as_bytes());
    Ok(Rerun {
        played,
        results,
        page,
    })
}

/// Runs the program of a record again, if it can be run, and compares.
fn run_again<W: Watch>(
    heap: Global,
    contents: &Contents<'_>,
    watch: &mut W,
) -> Result<Result<Rerun, RunError>, AllocError>
    ensures found { IfOk result (λ r. shown_run r ≡ run_found (contents_of contents.now)) }
    ensures heard { Hears W.hears (told_of_rerun (contents_of contents.now)) result watch.old watch.new }
{
    let permit = match read_permit(contents.permit) {
        Ok(permit) => permit,
        Err(error) => return Ok(Err(RunError::Permit(error))),
    };
    match play(
        heap,
        &orders(contents.executable, contents.readings, &permit),
        watch,
    ) {
        Ok(played) => Ok(Ok(compare(heap, contents, played)?)),
        Err(play::refusal::Refusal::Memory) => Err(AllocError),
        Err(refusal) => Ok(Err(RunError::Run(refusal))),
    }
}

/// Opens a record: lists its program, runs it over its readings under its permit, and compares both with what is filed.
pub fn replay<W: Watch>(
    heap: Global,
    contents: &Contents<'_>,
    watch: &mut W,
) -> Result<Opened, ReplayError>
    ensures found { Replays (contents_of contents.now) result }
    ensures heard { Hears W.hears (told_of_opening (contents_of contents.now)) result watch.old watch.new }
{
    let page = list_page(heap, contents.executable)?;
    let listing = compare_texts(page.as_slice(), contents.listing);
    let run = run_again(heap, contents, watch)?;
    Ok(Opened { listing, run })
}
