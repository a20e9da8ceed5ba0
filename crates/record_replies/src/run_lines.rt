//! The lines that tell of the run of a record.

ghost use Rattle.std.specs.Prelude.{◌≡◌, IfOk};
ghost use Rattle.record.specs.Opened.{shown_rerun, shown_run};
ghost use Rattle.record_replies.specs.Reruns.{differing, item_at, item_line, page_line, rerun_lines, results_lines, run_lines, run_refusal};
ghost use Rattle.reply.specs.Replies.{shown};

use crate::names::PERMIT;
use host::item::Item;
use item_lines::line::item_text;
use item_lines::tape::read_tape;
use record::finding::Finding;
use record::replay::{Rerun, RunError};
use reply::line::named_line;
use reply::permit_refusal::refuse_permit;
use reply::played::played_page;
use reply::reply::Reply;
use reply::run::refuse_run;
use std::alloc::{AllocError, Global};

/// An item of a tape by its number, counted from 1, or none.
fn item_at(heap: Global, tape: &[u8], number: usize) -> Result<Option<Item>, AllocError>
    ensures { IfOk result (λ item. item ≡ item_at number tape.now) }
{
    let contents = read_tape(heap, tape)?;
    let before = number.saturating_sub(1);
    Ok(contents.items.as_slice().get(before).copied())
}

/// The line of an item with a name in front of it, or that there is none.
fn item_line(heap: Global, name: &str, item: Option<Item>) -> Result<Vec<u8>, AllocError>
    ensures { IfOk result (λ line. line.items ≡ item_line name.now item) }
{
    match item {
        Some(item) => {
            let text = item_text(heap, item)?;
            named_line(heap, name, text.as_bytes())
        }
        None => named_line(heap, name, b"no item"),
    }
}

/// The lines of results that differ from an item on.
fn differing(heap: Global, at: usize, filed: &[u8], now: &[u8]) -> Result<Vec<u8>, AllocError>
    ensures { IfOk result (λ lines. lines.items ≡ differing filed.now now.now at) }
{
    let filed = item_line(heap, "  filed", item_at(heap, filed, at)?)?;
    let now = item_line(heap, "  now", item_at(heap, now, at)?)?;
    let mut lines = format!(in heap; "results: differ at item {at}\n")?.into_bytes();
    lines.extend_from_slice(filed.as_slice())?;
    lines.extend_from_slice(now.as_slice())?;
    Ok(lines)
}

/// The lines that tell what was found of the filed results beside those of a run.
fn results_lines(
    heap: Global,
    finding: Finding,
    filed: &[u8],
    now: &[u8],
) -> Result<Vec<u8>, AllocError>
    ensures { IfOk result (λ lines. lines.items ≡ results_lines filed.now now.now finding) }
{
    match finding {
        Finding::Agrees => Vec::from_slice(heap, b"results: agree\n"),
        Finding::Differs { at } => differing(heap, at, filed, now),
    }
}

/// The line that tells whether the page ends with what a run came to.
fn page_line(agrees: bool) -> &'static [u8]
    ensures { result.now ≡ page_line agrees }
{
    if agrees {
        b"page: agrees\n"
    } else {
        b"page: does not end with what the run came to\n"
    }
}

/// The lines of a run: what it came to, and what was found of the filed results and of the page.
fn rerun_lines(heap: Global, filed: &[u8], rerun: &Rerun) -> Result<Vec<u8>, AllocError>
    ensures { IfOk result (λ lines. lines.items ≡ rerun_lines filed.now (shown_rerun rerun.now)) }
{
    let results = results_lines(heap, rerun.results, filed, rerun.played.results.as_slice())?;
    let mut lines = played_page(heap, &rerun.played)?;
    lines.extend_from_slice(results.as_slice())?;
    lines.extend_from_slice(page_line(rerun.page))?;
    Ok(lines)
}

/// The reply where the program of a record is not run.
fn refuse(heap: Global, error: RunError) -> Result<Reply, AllocError>
    ensures { IfOk result (λ r. shown r ≡ run_refusal error) }
{
    match error {
        RunError::Permit(error) => refuse_permit(heap, PERMIT, error),
        RunError::Run(refusal) => refuse_run(heap, refusal),
    }
}

/// The lines that tell of the run of a record with filed results.
pub(crate) fn run_lines(
    heap: Global,
    filed: &[u8],
    run: &Result<Rerun, RunError>,
) -> Result<Vec<u8>, AllocError>
    ensures { IfOk result (λ lines. lines.items ≡ run_lines filed.now (shown_run run.now)) }
{
    match run {
        Ok(rerun) => rerun_lines(heap, filed, rerun),
        Err(error) => Ok(refuse(heap, *error)?.page),
    }
}
