//! The first steps of a run.

ghost use Rattle.std.specs.Prelude.{◌≡◌, ◌*◌, ◌≤◌, min, IfOk, length};
ghost use Rattle.permit.specs.Rights.{rights_of};
ghost use Rattle.play.specs.Traced.{traced, Traces};
ghost use Rattle.play.specs.Whole.{orders_of, tape_meaning};
ghost use Rattle.runs.specs.Machines.{machine_of};
ghost use Rattle.runs.specs.Runs.{held};

use crate::orders::Orders;
use crate::prepared::prepare;
use crate::refusal::Refusal;
use crate::taken::take_step;
use host::host::Host;
use host::lent_host::LentHost;
use permit::permit::Permit;
use run_pages::step::Step;
use runs::loaded::Machine;
use std::alloc::{AllocError, Global};

/// The first steps of a machine, at most so many: up to one that is not taken, or one that ends the run.
fn first_steps<H: Host>(
    heap: Global,
    count: u64,
    machine: &mut Machine,
    permit: &Permit,
    cells: &mut [u32],
    host: &mut H,
) -> Result<Vec<Step>, AllocError>
    ensures { IfOk result (λ steps. steps.items ≡ traced (rights_of permit.now) count 0 (held (machine_of machine.old) cells.old (H.meaning host.old))) }
{
    let mut steps = Vec::new(heap);
    for done in 0..count {
        let Some(taken) = take_step(done, machine, permit, cells, host) else {
            break;
        };
        steps.push(taken.step).map_err(AllocError::from)?;
        if !taken.goes_on {
            break;
        }
    }
    Ok(steps)
}

/// The first steps of a machine that was just loaded, over the tape of its readings and an output that has room for the writes.
fn trace_over(
    heap: Global,
    orders: &Orders<'_>,
    count: u64,
    machine: &mut Machine,
    cells: &mut [u32],
    output: &mut [u8],
) -> Result<Vec<Step>, AllocError>
    requires few { orders.now.writes ≤ 65536 }
    requires room { 9 * orders.now.writes ≤ length output.old }
    ensures { IfOk result (λ steps. steps.items ≡ traced (rights_of orders.now.permit.now) (min count orders.now.budget) 0 (held (machine_of machine.old) cells.old (tape_meaning orders.now.readings.now orders.now.writes))) }
{
    let mut host = LentHost::new(orders.readings, output, orders.writes as usize);
    let most = count.min(orders.budget);
    first_steps(heap, most, machine, orders.permit, cells, &mut host)
}

/// The first steps of a run, at most so many: of each where its word stood, and what the registers and the flags held before
/// and after it. A step that faults is not taken, and not in the list.
pub fn trace(heap: Global, orders: &Orders<'_>, count: u64) -> Result<Vec<Step>, Refusal>
    ensures { Traces (orders_of orders.now) count result }
{
    let mut ready = prepare(heap, orders)?;
    let steps = trace_over(
        heap,
        orders,
        count,
        &mut ready.machine,
        ready.cells.as_mut_slice(),
        ready.output.as_mut_slice(),
    )?;
    Ok(steps)
}
