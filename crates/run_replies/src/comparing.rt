//! The reply of the command compare.

ghost use Rattle.std.specs.Prelude.{◌≡◌, IfOk, Ok, true};
ghost use Rattle.permit.specs.Open.{AsOpen};
ghost use Rattle.permit.specs.Rights.{rights_of};
ghost use Rattle.play.specs.Watched.{told_of_whole, Hears};
ghost use Rattle.play.specs.Whole.{orders_of, shown as outcome_of};
ghost use Rattle.run_replies.specs.Comparing.{told_of_first, IsDoneWhereOpen, IsDoneWhereRun, PartsTold, ReadTold, RunTold};
ghost use Rattle.run_replies.specs.Permits.{permit_of, shown_permit};
ghost use Rattle.run_replies.specs.Running.{shown_running};
ghost use Rattle.run_replies.specs.Wishes.{wishes_of};

use crate::parting::parted;
use crate::permits::permit_of;
use crate::running::{Extras, Running, not_run};
use crate::wishes::Wishes;
use permit::permit::Permit;
use play::comparing::compare_permits;
use play::orders::Orders;
use play::play::play;
use play::played::Played;
use play::watch::Watch;
use reply::named::Named;
use reply::reply::Reply;
use reply::run::refuse_run;
use std::alloc::{AllocError, Global};

/// The reply on an executable that was run under its permit: it is run under both permits, which is refused for want of memory
/// alone.
fn part(
    heap: Global,
    orders: &Orders<'_>,
    extras: Extras,
    second: &Permit,
    played: Played,
) -> Result<Running, AllocError>
    ensures told { IfOk result (λ r. PartsTold (orders_of orders.now) extras orders.now.permit.now second.now (outcome_of played) (shown_running r)) }
    ensures law { AsOpen (rights_of orders.now.permit.now) (rights_of second.now) → IfOk result (λ r. r.reply.done ≡ true) }
{
    match compare_permits(heap, orders, second) {
        Ok(parting) => parted(heap, orders, extras, parting, played),
        Err(_) => Err(AllocError),
    }
}

/// Compares an executable's runs under two permits, if it is run under the first.
#[tactic(auto, unfolding(crate::specs::Comparing::RunTold, crate::specs::Comparing::IsDoneWhereRun))]
fn compare_under<W: Watch>(
    heap: Global,
    orders: &Orders<'_>,
    extras: Extras,
    second: &Permit,
    watch: &mut W,
) -> Result<Running, AllocError>
    ensures told { IfOk result (λ r. RunTold (orders_of orders.now) extras orders.now.permit.now second.now (shown_running r)) }
    ensures heard { Hears W.hears (told_of_whole (orders_of orders.now)) result watch.old watch.new }
    ensures law { AsOpen (rights_of orders.now.permit.now) (rights_of second.now) → IfOk result (λ r. IsDoneWhereRun (orders_of orders.now) (shown_running r)) }
{
    match play(heap, orders, watch) {
        Ok(played) => part(heap, orders, extras, second, played),
        Err(refusal) => Ok(not_run(refuse_run(heap, refusal)?)),
    }
}

/// Compares an executable's runs under a permit that was read and a second one, if that was read too.
#[tactic(auto, unfolding(crate::specs::Comparing::ReadTold, crate::specs::Comparing::IsDoneWhereOpen))]
fn compare_from<W: Watch>(
    heap: Global,
    wishes: &Wishes<'_>,
    extras: Extras,
    permit: &Permit,
    second: Result<Permit, Reply>,
    watch: &mut W,
) -> Result<Running, AllocError>
    ensures told { IfOk result (λ r. ReadTold (wishes_of wishes.now) extras (Ok (rights_of permit.now)) (shown_permit second) (shown_running r)) }
    ensures heard { let first = Ok (rights_of permit.now) in
        Hears W.hears (told_of_first (wishes_of wishes.now) first (shown_permit second)) result watch.old watch.new }
    ensures law { IfOk result (λ r. IsDoneWhereOpen (wishes_of wishes.now) (Ok (rights_of permit.now)) (shown_permit second) (shown_running r)) }
{
    match second {
        Ok(other) => compare_under(heap, &wishes.orders(permit), extras, &other, watch),
        Err(reply) => Ok(not_run(reply)),
    }
}

/// Compares an executable's runs under two permits, if both were read.
#[tactic(auto, unfolding(crate::specs::Comparing::ReadTold, crate::specs::Comparing::IsDoneWhereOpen))]
fn compare_read<W: Watch>(
    heap: Global,
    wishes: &Wishes<'_>,
    extras: Extras,
    first: Result<Permit, Reply>,
    second: Result<Permit, Reply>,
    watch: &mut W,
) -> Result<Running, AllocError>
    ensures told { IfOk result (λ r. ReadTold (wishes_of wishes.now) extras (shown_permit first) (shown_permit second) (shown_running r)) }
    ensures heard { let hearing = told_of_first (wishes_of wishes.now) (shown_permit first) (shown_permit second) in
        Hears W.hears hearing result watch.old watch.new }
    ensures law { IfOk result (λ r. IsDoneWhereOpen (wishes_of wishes.now) (shown_permit first) (shown_permit second) (shown_running r)) }
{
    match first {
        Ok(permit) => compare_from(heap, wishes, extras, &permit, second, watch),
        Err(reply) => Ok(not_run(reply)),
    }
}

/// Runs an executable under the permits of two files, and tells whether and where the two part, and what comes of the run under
/// the first. The watcher is told how far that run is, and changes nothing of it. Where the second permit is at least as open as
/// the first, the two do not differ.
pub fn compare<W: Watch>(
    heap: Global,
    wishes: &Wishes<'_>,
    first: Named<'_>,
    second: Named<'_>,
    extras: Extras,
    watch: &mut W,
) -> Result<Running, AllocError>
    ensures told { IfOk result (λ r. ReadTold (wishes_of wishes.now) extras (permit_of first.entry) (permit_of second.entry) (shown_running r)) }
    ensures heard { let hearing = told_of_first (wishes_of wishes.now) (permit_of first.entry) (permit_of second.entry) in
        Hears W.hears hearing result watch.old watch.new }
    ensures law { IfOk result (λ r. IsDoneWhereOpen (wishes_of wishes.now) (permit_of first.entry) (permit_of second.entry) (shown_running r)) }
{
    let one = permit_of(heap, first)?;
    let other = permit_of(heap, second)?;
    compare_read(heap, wishes, extras, one, other, watch)
}
