//! Runs.

ghost use Rattle.std.specs.Prelude.{◌≡◌, length};
ghost use Rattle.machine.specs.Cores.{core_of};
ghost use Rattle.machine.specs.Rules.{rules_of};
ghost use Rattle.machine.specs.Step.{state};
ghost use Rattle.runs.specs.Laws.{NoRunAfterExit, SameUnderLargerBudgets, SameUnderWiderPermits, SpentAtPermitFaults};
ghost use Rattle.runs.specs.Machines.{machine_of};
ghost use Rattle.runs.specs.Questions.{run_asks, FirstNo};
ghost use Rattle.runs.specs.Runs.{ran, run_asked, called, end_of, held, settings_of};
ghost use Rattle.runs.specs.Steps.{TakesItsSteps};

use crate::loaded::Machine;
use crate::refusal::CallRefusal;
use crate::report::{Ending, Report};
use crate::settings::Settings;
use host::host::Host;
use machine::fault::Fault;
use machine::processor::Processor;
use machine::rules::Rules;
use machine::turn::Turn;

/// How a step ends a run, or none where the next step is taken.
fn end_of(answer: Result<Turn, Fault>) -> Option<Ending>
    ensures { result ≡ end_of answer }
{
    match answer {
        Ok(Turn::Next) => None,
        Ok(Turn::Halted) => Some(Ending::Halted),
        Ok(Turn::Exited(code)) => Some(Ending::Exited(code)),
        Err(fault) => Some(Ending::Fault(fault)),
    }
}

/// Takes steps until one ends the run or the budget is used up, which is asked before each.
fn take_steps<H: Host>(
    processor: &mut Processor,
    rules: &Rules<'_>,
    budget: u32,
    cells: &mut [u32],
    host: &mut H,
) -> Report
    ensures report { result ≡ (ran (rules_of rules.now) budget (state (core_of processor.old) cells.old (H.meaning host.old))).report }
    ensures after { state (core_of processor.new) cells.new (H.meaning host.new) ≡ (ran (rules_of rules.now) budget (state (core_of processor.old) cells.old (H.meaning host.old))).state }
    ensures lender { H.roots host.new ≡ H.roots host.old }
{
    for steps in 0..budget {
        let answer = processor.step(rules, cells, host);
        if let Some(ending) = end_of(answer) {
            let taken = steps + u32::from(answer.is_ok());
            return Report {
                steps: taken,
                ending,
            };
        }
    }
    Report {
        steps: budget,
        ending: Ending::Spent,
    }
}

impl Machine {
    /// Questions 50 to 52 of a run.
    fn ask(&self, size: usize, budget: u64) -> Result<u32, CallRefusal>
        ensures { result ≡ run_asked (machine_of self.now) size budget }
    {
        if size != self.size {
            return Err(CallRefusal::OtherMemory);
        }
        if self.exited {
            return Err(CallRefusal::HasExited);
        }
        if budget > 100_000_000 {
            return Err(CallRefusal::BudgetTooLarge);
        }
        Ok(budget as u32)
    }

    /// Runs the program over its memory and a host, under a permit and for no more steps than its budget.
    pub fn run<H: Host>(
        &mut self,
        settings: &Settings<'_>,
        cells: &mut [u32],
        host: &mut H,
    ) -> Result<Report, CallRefusal>
        ensures value { let before = held (machine_of self.old) cells.old (H.meaning host.old) in
            result ≡ (called (settings_of settings.now) before).answer }
        ensures after { let before = held (machine_of self.old) cells.old (H.meaning host.old) in
            let after = held (machine_of self.new) cells.new (H.meaning host.new) in
            after ≡ (called (settings_of settings.now) before).held }
        ensures first { let before = held (machine_of self.old) cells.old (H.meaning host.old) in
            FirstNo (run_asks (settings_of settings.now) before) result }
        ensures steps { let before = held (machine_of self.old) cells.old (H.meaning host.old) in
            let after = held (machine_of self.new) cells.new (H.meaning host.new) in
            TakesItsSteps (settings_of settings.now) before result after }
        ensures larger { let before = held (machine_of self.old) cells.old (H.meaning host.old) in
            SameUnderLargerBudgets (settings_of settings.now) before }
        ensures exits { let before = held (machine_of self.old) cells.old (H.meaning host.old) in
            NoRunAfterExit (settings_of settings.now) before }
        ensures spent { let before = held (machine_of self.old) cells.old (H.meaning host.old) in
            SpentAtPermitFaults (settings_of settings.now) before }
        ensures wider { let before = held (machine_of self.old) cells.old (H.meaning host.old) in
            SameUnderWiderPermits (settings_of settings.now) before }
        ensures lender { H.roots host.new ≡ H.roots host.old }
    {
        let budget = self.ask(cells.len(), settings.budget)?;
        let rules = Rules {
            permit: settings.permit,
            layout: self.layout,
        };
        let report = take_steps(&mut self.processor, &rules, budget, cells, host);
        self.exited = matches!(report.ending, Ending::Exited(_));
        Ok(report)
    }
}
