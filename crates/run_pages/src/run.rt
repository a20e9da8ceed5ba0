//! The page of a run.

ghost use Rattle.std.specs.Prelude.{◌≡◌, IfOk, string_bytes};
ghost use Rattle.run_pages.specs.Runs.{run_page};

use crate::ending::ending_line;
use runs::report::Report;
use std::alloc::{AllocError, Global};

/// The page of a run: how it ended, how many steps it took, how many items it took of the host, and how many it wrote.
pub fn run_page(
    heap: Global,
    report: Report,
    taken: usize,
    written: usize,
) -> Result<String, AllocError>
    ensures { IfOk result (λ s. string_bytes s ≡ run_page report taken written) }
{
    let ending = ending_line(heap, report.ending)?;
    let steps = report.steps;
    format!(in heap; "{ending}steps {steps}\ntaken {taken}\nwritten {written}\n")
}
