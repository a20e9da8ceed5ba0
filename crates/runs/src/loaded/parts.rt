//! Runs in parts.

ghost use Rattle.std.specs.Prelude.{◌≡◌, ◌<◌, ◌^◌, Some, IfSome};
ghost use Rattle.std.specs.Option.{option_map};
ghost use Rattle.permit.specs.Rights.{Rights};
ghost use Rattle.runs.specs.Machines.{machine_of};
ghost use Rattle.runs.specs.Parts.{joined, parts, total_report, LeavesOther, OneRunOfTheSum};
ghost use Rattle.runs.specs.Runs.{held};

use crate::loaded::Machine;
use crate::report::{Ending, Report};
use crate::request::{Answer, PermittedRequest};
use crate::total::Total;
use host::host::Host;

/// What some runs come to with one more after them.
fn with_run(total: Option<Total>, report: Report) -> Total
    requires { IfSome total (λ t. t.steps < 2 ^ 100) }
    ensures { Some (total_report result) ≡ joined (option_map total_report total) (Some report) }
{
    let before = total.map_or(0, |sum| sum.steps);
    Total {
        steps: before + u128::from(report.steps),
        ending: report.ending,
    }
}

impl Machine {
    /// Answers requests in turn, each under its permit, up to the first run that ends by itself, and tells what the runs come
    /// to. Looks and refused calls may stand between, under any permit; parts of another memory are handed in where a request
    /// says so. If no such part is as long as the machine's memory, runs that have the same rights are together one run of the
    /// summed budget, where that is lawful.
    pub fn run_in_parts<H: Host>(
        &mut self,
        requests: &[PermittedRequest],
        cells: &mut [u32],
        host: &mut H,
        other: &mut [u32],
    ) -> Option<Total>
        ensures total { let before = held (machine_of self.old) cells.old (H.meaning host.old) in
            option_map total_report result ≡ (parts requests.now before other.old).report }
        ensures after { let before = held (machine_of self.old) cells.old (H.meaning host.old) in
            let after = held (machine_of self.new) cells.new (H.meaning host.new) in
            after ≡ (parts requests.now before other.old).held }
        ensures other { let before = held (machine_of self.old) cells.old (H.meaning host.old) in
            other.new ≡ (parts requests.now before other.old).other }
        ensures one { let before = held (machine_of self.old) cells.old (H.meaning host.old) in
            (p : Rights) → OneRunOfTheSum p requests.now before other.old }
        ensures kept { let before = held (machine_of self.old) cells.old (H.meaning host.old) in
            LeavesOther requests.now before other.old }
        ensures lender { H.roots host.new ≡ H.roots host.old }
    {
        let mut total = None;
        for asked in requests {
            let answer = self.answer(&asked.permit, asked.request, cells, host, other);
            let Answer::Ran(report) = answer else {
                continue;
            };
            total = Some(with_run(total, report));
            if !matches!(report.ending, Ending::Spent) {
                return total;
            }
        }
        total
    }
}
