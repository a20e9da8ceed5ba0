//! The reply of the command run.

ghost use Rattle.std.specs.Prelude.{◌≡◌, IfOk};
ghost use Rattle.play.specs.Watched.{told_of_whole, Hears};
ghost use Rattle.play.specs.Whole.{orders_of, shown};
ghost use Rattle.run_replies.specs.Permits.{shown_permit};
ghost use Rattle.run_replies.specs.Running.{dump_lines, first_steps, not_run, ran, ran_page, run_under, run_with, running, shown_running, steps_lines, told_of_running, told_with};
ghost use Rattle.reply.specs.Replies.{shown as shown_reply};
ghost use Rattle.run_replies.specs.Wishes.{wishes_of};
ghost use Rattle.runs.specs.Machines.{machine_of};

use crate::permits::permit_given;
use crate::wishes::Wishes;
use permit::permit::Permit;
use play::orders::Orders;
use play::play::play;
use play::played::Played;
use play::trace::trace;
use play::watch::Watch;
use reply::named::Named;
use reply::played::played_page;
use reply::reply::Reply;
use reply::run::refuse_run;
use run_pages::dump::dump_page;
use run_pages::steps::steps_page;
use runs::loaded::Machine;
use std::alloc::{AllocError, Global};

/// What is told of a run besides its outcome: its first steps, at most so many, and whether what the machine holds.
#[derive(Clone, Copy)]
pub struct Extras {
    pub trace: u64,
    pub dump: bool,
}

/// What the commands run and compare print, and the tape of the results, where the program is run: of a comparison those under
/// the first permit.
#[derive(Drop)]
pub struct Running {
    pub reply: Reply,
    pub results: Option<Vec<u8>>,
}

/// The page of what a machine holds, if it is asked for.
fn dump_lines(heap: Global, asked: bool, machine: &Machine) -> Result<Vec<u8>, AllocError>
    ensures { IfOk result (λ page. page.items ≡ dump_lines asked (machine_of machine.now)) }
{
    if asked {
        Ok(dump_page(heap, machine)?.into_bytes())
    } else {
        Ok(Vec::new(heap))
    }
}

/// The lines of the first steps of a run that was taken, at most so many: these are refused for want of memory alone.
#[tactic(auto, unfolding(crate::specs::Running::first_steps))]
fn steps_lines(heap: Global, orders: &Orders<'_>, count: u64) -> Result<Vec<u8>, AllocError>
    ensures { IfOk result (λ page. page.items ≡ steps_lines (first_steps (orders_of orders.now) count)) }
{
    match trace(heap, orders, count) {
        Ok(steps) => steps_page(heap, steps.as_slice()),
        Err(_) => Err(AllocError),
    }
}

/// The page of a run: its outcome, what the machine holds, and the first steps.
#[tactic(auto, unfolding(crate::specs::Running::ran_page))]
pub(crate) fn ran_page(
    heap: Global,
    orders: &Orders<'_>,
    extras: Extras,
    played: &Played,
) -> Result<Vec<u8>, AllocError>
    ensures { IfOk result (λ page. page.items ≡ ran_page (orders_of orders.now) extras (shown played.now)) }
{
    let mut page = played_page(heap, played)?;
    let dump = dump_lines(heap, extras.dump, &played.machine)?;
    let steps = steps_lines(heap, orders, extras.trace)?;
    page.extend_from_slice(dump.as_slice())?;
    page.extend_from_slice(steps.as_slice())?;
    Ok(page)
}

/// What comes of a run that was taken, by its page and the tape of its results.
fn ran(page: Vec<u8>, results: Vec<u8>) -> Running
    ensures { shown_running result ≡ ran page.items results.items }
{
    Running {
        reply: Reply { page, done: true },
        results: Some(results),
    }
}

/// What comes of it where there is no run.
pub(crate) fn not_run(reply: Reply) -> Running
    ensures { shown_running result ≡ not_run (shown_reply reply) }
{
    Running {
        reply,
        results: None,
    }
}

/// Runs an executable under a permit.
#[tactic(auto, unfolding(crate::specs::Running::run_under))]
fn run_under<W: Watch>(
    heap: Global,
    orders: &Orders<'_>,
    extras: Extras,
    watch: &mut W,
) -> Result<Running, AllocError>
    ensures told { IfOk result (λ r. shown_running r ≡ run_under (orders_of orders.now) extras) }
    ensures heard { Hears W.hears (told_of_whole (orders_of orders.now)) result watch.old watch.new }
{
    match play(heap, orders, watch) {
        Ok(played) => {
            let page = ran_page(heap, orders, extras, &played)?;
            Ok(ran(page, played.results))
        }
        Err(refusal) => Ok(not_run(refuse_run(heap, refusal)?)),
    }
}

/// Runs an executable under a permit, if that was read.
#[tactic(auto, unfolding(crate::specs::Running::run_with))]
fn run_with<W: Watch>(
    heap: Global,
    wishes: &Wishes<'_>,
    permit: Result<Permit, Reply>,
    extras: Extras,
    watch: &mut W,
) -> Result<Running, AllocError>
    ensures told { IfOk result (λ r. shown_running r ≡ run_with (wishes_of wishes.now) extras (shown_permit permit)) }
    ensures heard { Hears W.hears (told_with (wishes_of wishes.now) (shown_permit permit)) result watch.old watch.new }
{
    match permit {
        Ok(permit) => run_under(heap, &wishes.orders(&permit), extras, watch),
        Err(reply) => Ok(not_run(reply)),
    }
}

/// Runs an executable under the permit of a file, or under a new one where none is given, and tells what comes of it. The
/// watcher is told how far the run is, and changes nothing of it.
pub fn run<W: Watch>(
    heap: Global,
    wishes: &Wishes<'_>,
    permit: Option<Named<'_>>,
    extras: Extras,
    watch: &mut W,
) -> Result<Running, AllocError>
    ensures told { IfOk result (λ r. shown_running r ≡ running (wishes_of wishes.now) permit.entry extras) }
    ensures heard { Hears W.hears (told_of_running (wishes_of wishes.now) permit.entry) result watch.old watch.new }
{
    let permit = permit_given(heap, permit)?;
    run_with(heap, wishes, permit, extras, watch)
}
