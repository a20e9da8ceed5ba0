//! The page of a whole run.

ghost use Rattle.std.specs.Prelude.{◌≡◌, IfOk};
ghost use Rattle.play.specs.Whole.{shown};
ghost use Rattle.reply.specs.Runs.{fault_lines, outcome_page};

use play::played::Played;
use run_pages::fault::fault_page;
use run_pages::run::run_page;
use runs::report::Ending;
use std::alloc::{AllocError, Global};

/// What a fault means, and the command at its address, where a run ended in one.
fn fault_lines(heap: Global, ending: Ending, word: Option<u32>) -> Result<Vec<u8>, AllocError>
    ensures { IfOk result (λ page. page.items ≡ fault_lines ending word) }
{
    match ending {
        Ending::Fault(fault) => fault_page(heap, fault, word),
        _ => Ok(Vec::new(heap)),
    }
}

/// How a run ended, how much it took and wrote, and of a fault what it means and the command at its address.
pub fn played_page(heap: Global, played: &Played) -> Result<Vec<u8>, AllocError>
    ensures { IfOk result (λ page. page.items ≡ outcome_page (shown played.now)) }
{
    let faults = fault_lines(heap, played.report.ending, played.word)?;
    let mut page = run_page(heap, played.report, played.taken, played.written)?.into_bytes();
    page.extend_from_slice(faults.as_slice())?;
    Ok(page)
}
