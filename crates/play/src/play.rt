//! A whole run.

ghost use Rattle.std.specs.Prelude.{◌≡◌, ◌*◌, ◌≤◌, false, IfOk, Ok, length};
ghost use Rattle.host.specs.LentMeaning.{lent_meaning};
ghost use Rattle.host.specs.Tapes.{items, tape_code};
ghost use Rattle.play.specs.Watched.{settings_asked, told_of, told_of_whole, Hears};
ghost use Rattle.play.specs.Whole.{outcome, orders_of, outcome_after, shown, tape_meaning, Answers, Plays};
ghost use Rattle.runs.specs.Machines.{machine_of};
ghost use Rattle.runs.specs.Runs.{held};

use crate::orders::Orders;
use crate::played::Played;
use crate::prepared::prepare;
use crate::readings::{Reader, Readings};
use crate::refusal::Refusal;
use crate::watch::Watch;
use crate::watched::run_watched;
use host::lent_host::LentHost;
use host::tape::Tape;
use item_lines::tape::read_tape;
use runs::loaded::Machine;
use runs::report::Report;
use runs::settings::Settings;
use std::alloc::{AllocError, Global};
use std::marker::{Brand, PhantomData};

/// How many items are on a tape.
pub fn count_items(heap: Global, tape: &[u8]) -> Result<usize, AllocError>
    ensures { IfOk result (λ n. n ≡ length (items tape.now)) }
{
    let contents = read_tape(heap, tape)?;
    Ok(contents.items.len())
}

/// What a run gives, by what it leaves.
fn finish(
    heap: Global,
    readings: &[u8],
    report: Report,
    machine: &Machine,
    cells: &[u32],
    host: &Tape<'_, '_>,
) -> Result<Played, AllocError>
    ensures { IfOk result (λ p. shown p ≡ outcome readings.now report (held (machine_of machine.now) cells.now (lent_meaning tape_code host.now))) }
{
    let all = count_items(heap, readings)?;
    let waiting = count_items(heap, host.waiting())?;
    let written = count_items(heap, host.written())?;
    let place = machine.register(15).unwrap_or(0);
    Ok(Played {
        report,
        taken: all.saturating_sub(waiting),
        written,
        results: Vec::from_slice(heap, host.written())?,
        machine: *machine,
        word: cells.get(place as usize).copied(),
    })
}

/// Runs a machine that was just loaded, over the tape of its readings and an output that has room for the writes.
fn run_reading<R: Readings, W: Watch>(
    heap: Global,
    orders: &Orders<'_>,
    machine: &mut Machine,
    cells: &mut [u32],
    output: &mut [u8],
    watch: &mut W,
) -> Result<Played, Refusal>
    requires readings { orders.now.readings.now ≡ R.readings }
    requires budget { orders.now.budget ≤ 100000000 }
    requires few { orders.now.writes ≤ 65536 }
    requires room { 9 * orders.now.writes ≤ length output.old }
    requires size { length cells.old ≡ (machine_of machine.old).size }
    requires runs { (machine_of machine.old).exited ≡ false }
    ensures value { Answers (Ok (outcome_after (orders_of orders.now) (held (machine_of machine.old) cells.old (tape_meaning orders.now.readings.now orders.now.writes)))) result }
    ensures heard { let means = tape_meaning orders.now.readings.now orders.now.writes in
        let first = held (machine_of machine.old) cells.old means in
        let hearing = told_of orders.now.readings.now (settings_asked (orders_of orders.now)) first in
        Hears W.hears hearing result watch.old watch.new }
{
    let mut host: Reader<'_, '_, R> = Reader {
        tape: LentHost::new(orders.readings, output, orders.writes as usize),
        of: PhantomData,
    };
    let settings = Settings {
        permit: orders.permit,
        budget: orders.budget,
    };
    let report = run_watched(machine, &settings, cells, &mut host, watch).map_err(
        |_| Refusal::Memory,
    )?;
    let played = finish(heap, orders.readings, report, machine, cells, &host.tape)?;
    Ok(played)
}

/// Runs a machine that was just loaded. Proofs know the readings by a name.
fn run_over<W: Watch>(
    heap: Global,
    orders: &Orders<'_>,
    machine: &mut Machine,
    cells: &mut [u32],
    output: &mut [u8],
    watch: &mut W,
) -> Result<Played, Refusal>
    requires budget { orders.now.budget ≤ 100000000 }
    requires few { orders.now.writes ≤ 65536 }
    requires room { 9 * orders.now.writes ≤ length output.old }
    requires size { length cells.old ≡ (machine_of machine.old).size }
    requires runs { (machine_of machine.old).exited ≡ false }
    ensures value { Answers (Ok (outcome_after (orders_of orders.now) (held (machine_of machine.old) cells.old (tape_meaning orders.now.readings.now orders.now.writes)))) result }
    ensures heard { let means = tape_meaning orders.now.readings.now orders.now.writes in
        let first = held (machine_of machine.old) cells.old means in
        let hearing = told_of orders.now.readings.now (settings_asked (orders_of orders.now)) first in
        Hears W.hears hearing result watch.old watch.new }
{
    run_reading::<Brand, W>(heap, orders, machine, cells, output, watch)
}

/// Runs an executable over the tape of its readings: it is loaded into a memory of zeros, and run once. The watcher is told
/// how far the run is, and changes nothing of it.
pub fn play<W: Watch>(heap: Global, orders: &Orders<'_>, watch: &mut W) -> Result<Played, Refusal>
    ensures value { Plays (orders_of orders.now) result }
    ensures heard { Hears W.hears (told_of_whole (orders_of orders.now)) result watch.old watch.new }
{
    let mut ready = prepare(heap, orders)?;
    run_over(
        heap,
        orders,
        &mut ready.machine,
        ready.cells.as_mut_slice(),
        ready.output.as_mut_slice(),
        watch,
    )
}
