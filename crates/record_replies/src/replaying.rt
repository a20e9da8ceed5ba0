//! Opening a record, and what is told of it.

ghost use Rattle.std.specs.Prelude.{◌≡◌, true, IfOk};
ghost use Rattle.play.specs.Watched.{Hears};
ghost use Rattle.record.specs.Filing.{ReplayAgrees};
ghost use Rattle.record.specs.Opened.{contents_of, opened, shown as shown_opened, told_of_opening};
ghost use Rattle.record_replies.specs.Replaying.{all_line, no_executable, replayed, told};
ghost use Rattle.reply.specs.Replies.{shown};

use crate::listing_lines::listing_lines;
use crate::run_lines::run_lines;
use listing::refusal::Refusal;
use play::watch::Watch;
use record::contents::Contents;
use record::replay::{Opened, ReplayError};
use reply::refusal::refuse;
use reply::reply::Reply;
use std::alloc::{AllocError, Global};

/// The reply where the program of a record is no executable.
fn refuse_program(heap: Global, refusal: Refusal) -> Result<Reply, AllocError>
    ensures { IfOk result (λ r. shown r ≡ no_executable refusal) }
{
    let refused = refuse(heap, refusal.number())?;
    let mut page = Vec::from_slice(heap, b"program: no executable\n")?;
    page.extend_from_slice(refused.page.as_slice())?;
    Ok(Reply { page, done: false })
}

/// The last line: whether all of the record agrees.
fn all_line(agrees: bool) -> &'static [u8]
    ensures { result.now ≡ all_line agrees }
{
    if agrees {
        b"all of the record agrees\n"
    } else {
        b"not all of the record agrees\n"
    }
}

/// The reply to what was found of a record whose program is an executable.
fn tell(heap: Global, contents: &Contents<'_>, opened: &Opened) -> Result<Reply, AllocError>
    ensures { IfOk result (λ r. shown r ≡ told (contents_of contents.now) (shown_opened opened.now)) }
{
    let listing = listing_lines(heap, opened.listing, contents.executable, contents.listing)?;
    let run = run_lines(heap, contents.results, &opened.run)?;
    let done = opened.agrees();
    let mut page = Vec::from_slice(heap, b"program: accepted\n")?;
    page.extend_from_slice(listing.as_slice())?;
    page.extend_from_slice(run.as_slice())?;
    page.extend_from_slice(all_line(done))?;
    Ok(Reply { page, done })
}

/// Opens a record, and tells what agrees and what does not.
pub fn replay<W: Watch>(
    heap: Global,
    contents: &Contents<'_>,
    watch: &mut W,
) -> Result<Reply, AllocError>
    ensures told { IfOk result (λ r. shown r ≡ replayed (contents_of contents.now)) }
    ensures heard { Hears W.hears (told_of_opening (contents_of contents.now)) result watch.old watch.new }
    ensures agrees { IfOk result (λ r. r.done ≡ true → ReplayAgrees (opened (contents_of contents.now))) }
{
    match record::replay::replay(heap, contents, watch) {
        Ok(opened) => tell(heap, contents, &opened),
        Err(ReplayError::Executable(refusal)) => refuse_program(heap, refusal),
        Err(ReplayError::Memory) => Err(AllocError),
    }
}
