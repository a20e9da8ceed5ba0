//! One executable, run once under two permits.

ghost use Rattle.std.specs.Prelude.{◌≡◌, IfOk, length, MatchResult};
ghost use Rattle.permit.specs.Open.{AsOpen};
ghost use Rattle.permit.specs.Rights.{rights_of};
ghost use Rattle.play.specs.Parting.{fault_at, next_fault, run_under, Parts, PartsFrom};
ghost use Rattle.play.specs.Whole.{orders_of, Ready};
ghost use Rattle.runs.specs.Agreement.{NoDifference};
ghost use Rattle.runs.specs.Machines.{machine_of};
ghost use Rattle.runs.specs.Runs.{held};

use crate::orders::Orders;
use crate::prepared::{Prepared, prepare};
use crate::refusal::Refusal;
use host::host::Host;
use host::lent_host::LentHost;
use machine::fault::Fault;
use permit::permit::Permit;
use runs::comparison::{Outcome, Pairing};
use runs::loaded::Machine;
use runs::loaded::both::compare;
use runs::refusal::LoadRefusal;
use runs::report::{Ending, Report};
use runs::request::{Call, Memory, Request};
use runs::settings::Settings;
use std::alloc::Global;

/// What comes of running an executable under two permits.
#[derive(Clone, Copy)]
pub struct Parting {
    /// Whether and where the two part, by the call that carries the law of permits.
    pub outcome: Outcome,
    /// Whether the second permit is at least as open as the first; only then is the law about them.
    pub open: bool,
    /// The fault that the first meets there, where it meets a permit fault.
    pub fault: Option<Fault>,
}

/// One run of the whole budget, asked of two machines, each under a permit of its own.
fn run_under(budget: u64, first: &Permit, second: &Permit) -> Pairing
    ensures { result ≡ run_under budget first.now second.now }
{
    Pairing {
        request: Request {
            call: Call::Run(budget),
            memory: Memory::Own,
        },
        first: *first,
        second: *second,
    }
}

/// The fault that a machine meets at its next step, if it meets one.
fn next_fault<H: Host>(
    permit: &Permit,
    machine: &mut Machine,
    cells: &mut [u32],
    host: &mut H,
) -> Option<Fault>
    ensures fault { result ≡ next_fault (rights_of permit.now) (held (machine_of machine.old) cells.old (H.meaning host.old)) }
    ensures lender { H.roots host.new ≡ H.roots host.old }
{
    let once = Settings { permit, budget: 1 };
    match machine.run(&once, cells, host) {
        Ok(
            Report {
                ending: Ending::Fault(fault),
                ..
            },
        ) => Some(fault),
        _ => None,
    }
}

/// The fault that the first machine meets where it met a permit fault: it is asked for its next step there.
fn fault_at<H: Host>(
    outcome: Outcome,
    permit: &Permit,
    machine: &mut Machine,
    cells: &mut [u32],
    host: &mut H,
) -> Option<Fault>
    ensures fault { result ≡ fault_at outcome (rights_of permit.now) (held (machine_of machine.old) cells.old (H.meaning host.old)) }
    ensures lender { H.roots host.new ≡ H.roots host.old }
{
    match outcome {
        Outcome::PermitFault { .. } => next_fault(permit, machine, cells, host),
        _ => None,
    }
}

/// Runs an executable once under each of two permits, in two memories and over the same readings. The first machine is asked
/// for its next step after that where it met a permit fault.
fn part(
    orders: &Orders<'_>,
    second: &Permit,
    one: &mut Prepared,
    other: &mut Prepared,
) -> Result<Parting, LoadRefusal>
    requires one { Ready (orders_of orders.now) (machine_of one.old.machine) one.old.cells.items (length one.old.output.items) }
    requires other { Ready (orders_of orders.now) (machine_of other.old.machine) other.old.cells.items (length other.old.output.items) }
    ensures { MatchResult result (λ p. PartsFrom (orders_of orders.now) (machine_of one.old.machine) orders.now.permit.now second.now p) (λ _. ⊥) }
{
    let permit = orders.permit;
    let writes = orders.writes as usize;
    let mut host = LentHost::new(orders.readings, one.output.as_mut_slice(), writes);
    let mut other_host = LentHost::new(orders.readings, other.output.as_mut_slice(), writes);
    let run = run_under(orders.budget, permit, second);
    let cells = one.cells.as_mut_slice();
    let mut comparison = compare(
        orders.executable,
        cells,
        &mut host,
        other.cells.as_mut_slice(),
        &mut other_host,
        &mut [],
        &[run],
    )?;
    let outcome = comparison.outcome;
    Ok(Parting {
        outcome,
        open: second.is_as_open_as(permit),
        fault: fault_at(outcome, permit, &mut comparison.first, cells, &mut host),
    })
}

/// Runs an executable once under its permit and once under a second one, each time over the tape of its readings and in a
/// memory of zeros, and tells whether and where the two part.
pub fn compare_permits(
    heap: Global,
    orders: &Orders<'_>,
    second: &Permit,
) -> Result<Parting, Refusal>
    ensures parts { Parts (orders_of orders.now) orders.now.permit.now second.now result }
    ensures law { AsOpen (rights_of orders.now.permit.now) (rights_of second.now) → IfOk result (λ p. NoDifference p.outcome) }
{
    let mut one = prepare(heap, orders)?;
    let mut other = prepare(heap, orders)?;
    Ok(part(orders, second, &mut one, &mut other)?)
}
