//! A run in parts, of which somebody is told between them.

ghost use Rattle.std.specs.Prelude.{◌≡◌, ◌+◌, ◌<◌, ◌^◌};
ghost use Rattle.play.specs.Watched.{told_if_run, HearsAll};
ghost use Rattle.runs.specs.Machines.{machine_of};
ghost use Rattle.runs.specs.Runs.{called, held, settings_of};

use crate::readings::Waits;
use crate::watch::{Progress, Watch};
use runs::loaded::Machine;
use runs::refusal::CallRefusal;
use runs::report::{Ending, Report};
use runs::settings::Settings;

/// The most steps of a part.
const PART: u64 = 5_000_000;

/// The most steps of a run.
const MOST: u64 = 100_000_000;

/// The report of a run that goes on after a spent one.
fn joined(before: Report, more: Report) -> Report
    requires { before.steps + more.steps < 2 ^ 32 }
    ensures { result ≡ record { steps = before.steps + more.steps; ending = more.ending } }
{
    Report {
        steps: before.steps + more.steps,
        ending: more.ending,
    }
}

/// One run of the whole budget, taken in parts. The watcher is told after each of them.
pub(crate) fn run_watched<H: Waits, W: Watch>(
    machine: &mut Machine,
    settings: &Settings<'_>,
    cells: &mut [u32],
    host: &mut H,
    watch: &mut W,
) -> Result<Report, CallRefusal>
    ensures value { result ≡ (called (settings_of settings.now) (held (machine_of machine.old) cells.old (H.meaning host.old))).answer }
    ensures after { held (machine_of machine.new) cells.new (H.meaning host.new) ≡ (called (settings_of settings.now) (held (machine_of machine.old) cells.old (H.meaning host.old))).held }
    ensures lender { H.roots host.new ≡ H.roots host.old }
    ensures heard { let first = held (machine_of machine.old) cells.old (H.meaning host.old) in
        HearsAll W.hears (told_if_run H.readings (settings_of settings.now) first) watch.old watch.new }
{
    let Settings { permit, budget } = *settings;
    if budget > MOST {
        return machine.run(settings, cells, host);
    }
    let none = Settings { permit, budget: 0 };
    let mut report = machine.run(&none, cells, host)?;
    let mut left = budget;
    while left > 0 && matches!(report.ending, Ending::Spent) {
        let part = left.min(PART);
        let next = Settings {
            permit,
            budget: part,
        };
        report = joined(report, machine.run(&next, cells, host)?);
        left -= part;
        watch.tell(Progress {
            steps: report.steps,
            budget,
            waiting: host.waiting_tape(),
        });
    }
    Ok(report)
}
