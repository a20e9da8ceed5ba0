//! What stands before the first step of a run.

ghost use Rattle.play.specs.Whole.{orders_of, Prepares};

use crate::orders::Orders;
use crate::refusal::Refusal;
use runs::loaded::Machine;
use std::alloc::Global;

/// The most writes.
const MOST_WRITES: u64 = 65_536;

/// The most steps.
const MOST_STEPS: u64 = 100_000_000;

/// The most bytes that an item takes on a tape.
const ITEM: usize = 9;

/// More cells than any memory has.
const TOO_MANY: u64 = 1_048_577;

/// A loaded machine, its memory, and an output that has room for the writes.
#[derive(Drop)]
pub(crate) struct Prepared {
    pub(crate) machine: Machine,
    pub(crate) cells: Vec<u32>,
    pub(crate) output: Vec<u8>,
}

/// Loads an executable into a memory of zeros, and asks about the writes and the budget.
pub(crate) fn prepare(heap: Global, orders: &Orders<'_>) -> Result<Prepared, Refusal>
    ensures { Prepares (orders_of orders.now) result }
{
    let mut cells = vec![in heap; 0u32; orders.cells.min(TOO_MANY) as usize]?;
    let machine = Machine::load(orders.executable, cells.as_mut_slice())?;
    if orders.writes > MOST_WRITES {
        return Err(Refusal::NoRoom);
    }
    if orders.budget > MOST_STEPS {
        return Err(Refusal::BudgetTooLarge);
    }
    let output = vec![in heap; 0u8; ITEM * orders.writes as usize]?;
    Ok(Prepared {
        machine,
        cells,
        output,
    })
}
