//! A step that was taken.

ghost use Rattle.std.specs.Prelude.{◌≡◌, ◌+◌, ◌<◌, ◌^◌, not};
ghost use Rattle.permit.specs.Rights.{rights_of};
ghost use Rattle.play.specs.Traced.{one_step, registers_of, step_between, taken, word_at};
ghost use Rattle.runs.specs.Laws.{by_itself};
ghost use Rattle.runs.specs.Machines.{machine_of};
ghost use Rattle.runs.specs.Runs.{held};

use host::host::Host;
use permit::permit::Permit;
use run_pages::step::Step;
use runs::loaded::Machine;
use runs::report::Ending;
use runs::settings::Settings;

/// A step, and whether the run goes on after it.
#[derive(Clone, Copy)]
pub(crate) struct Taken {
    pub(crate) step: Step,
    pub(crate) goes_on: bool,
}

/// What the registers hold, r0 first.
fn registers(machine: &Machine) -> [u32; 16]
    ensures { result ≡ registers_of (machine_of machine.now).core }
{
    let mut values = [0u32; 16];
    for (number, value) in values.iter_mut().enumerate() {
        *value = machine.register(number as u64).unwrap_or(0);
    }
    values
}

/// The word at the machine's r15, or 0 where memory has none.
fn word_at(machine: &Machine, cells: &[u32]) -> u32
    ensures { result ≡ word_at (machine_of machine.now) cells.now }
{
    let address = machine.register(15).unwrap_or(0);
    cells.get(address as usize).copied().unwrap_or(0)
}

/// A step after so many that were done, by its word and the machine before and after it.
fn step_between(done: u64, word: u32, before: &Machine, after: &Machine) -> Step
    requires { done + 1 < 2 ^ 64 }
    ensures { result ≡ step_between done word (machine_of before.now) (machine_of after.now) }
{
    Step {
        number: done + 1,
        address: before.register(15).unwrap_or(0),
        word,
        before: registers(before),
        after: registers(after),
        flags_before: before.flags(),
        flags_after: after.flags(),
    }
}

/// Whether a run ended since its budget was used up, and not by itself.
fn is_spent(ending: Ending) -> bool
    ensures { result ≡ not (by_itself ending) }
{
    matches!(ending, Ending::Spent)
}

/// Runs a machine for one step after so many that were done, and tells the step, if it was taken.
pub(crate) fn take_step<H: Host>(
    done: u64,
    machine: &mut Machine,
    permit: &Permit,
    cells: &mut [u32],
    host: &mut H,
) -> Option<Taken>
    requires { done + 1 < 2 ^ 64 }
    ensures value { result ≡ taken (rights_of permit.now) done (held (machine_of machine.old) cells.old (H.meaning host.old)) }
    ensures after { held (machine_of machine.new) cells.new (H.meaning host.new) ≡ (one_step (rights_of permit.now) (held (machine_of machine.old) cells.old (H.meaning host.old))).held }
    ensures lender { H.roots host.new ≡ H.roots host.old }
{
    let before = *machine;
    let word = word_at(&before, cells);
    let settings = Settings { permit, budget: 1 };
    let report = machine.run(&settings, cells, host).ok()?;
    if report.steps != 1 {
        return None;
    }
    Some(Taken {
        step: step_between(done, word, &before, machine),
        goes_on: is_spent(report.ending),
    })
}
