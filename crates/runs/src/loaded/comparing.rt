//! Two machines, asked the same.

ghost use Rattle.std.specs.Prelude.{◌≡◌, Decides};
ghost use Rattle.runs.specs.Compared.{met, asked_then, wanted, agreed, first_answered, second_answered, second_wanted, both_after, end_at, Compared};
ghost use Rattle.runs.specs.Laws.{is_permit_fault};
ghost use Rattle.runs.specs.Both.{both_over, lent};
ghost use Rattle.runs.specs.Machines.{machine_of};

use crate::comparison::{Outcome, Pairing};
use crate::loaded::Machine;
use crate::report::{Ending, Report};
use crate::request::{Answer, Call, Request};
use host::host::Host;
use machine::cause::Cause;

/// Whether a permit decides a fault.
fn is_permit_fault(cause: Cause) -> bool
    ensures { result ≡ is_permit_fault cause }
{
    matches!(cause, Cause::Register | Cause::Segment | Cause::Stack)
}

/// The steps of a run that met a permit fault, if an answer tells of one.
fn met(answer: Answer) -> Option<u32>
    ensures { result ≡ met answer }
{
    match answer {
        Answer::Ran(
            Report {
                steps,
                ending: Ending::Fault(fault),
            },
        ) if is_permit_fault(fault.cause) => Some(steps),
        _ => None,
    }
}

/// What the second machine is asked.
fn asked_then(request: Request, steps: Option<u32>) -> Request
    ensures { result ≡ asked_then request steps }
{
    match steps {
        None => request,
        Some(steps) => Request {
            call: Call::Run(u64::from(steps)),
            memory: request.memory,
        },
    }
}

/// What the second machine has to answer.
fn wanted(answer: Answer, steps: Option<u32>) -> Answer
    ensures { result ≡ wanted answer steps }
{
    match steps {
        None => answer,
        Some(steps) => Answer::Ran(Report {
            steps,
            ending: Ending::Spent,
        }),
    }
}

/// Whether two answers are the same, with all their values.
fn are_same(answer: Answer, other: Answer) -> bool
    ensures { Decides result (answer ≡ other) }
{
    answer == other
}

impl Pairing {
    /// Asks both machines, and tells the steps to a permit fault of the first, and whether the second answers what it has to.
    fn ask<H: Host, K: Host>(
        &self,
        first: &mut Machine,
        first_cells: &mut [u32],
        first_host: &mut H,
        second: &mut Machine,
        second_cells: &mut [u32],
        second_host: &mut K,
        other: &mut [u32],
    ) -> (Option<u32>, bool)
        ensures met { let at = lent first_cells.old (H.meaning first_host.old)
            second_cells.old (K.meaning second_host.old) other.old in
            let before = both_over (machine_of first.old) (machine_of second.old) at in
            result.0 ≡ met (first_answered self.now before).answer }
        ensures agreed { let at = lent first_cells.old (H.meaning first_host.old)
            second_cells.old (K.meaning second_host.old) other.old in
            let before = both_over (machine_of first.old) (machine_of second.old) at in
            Decides result.1 ((second_answered self.now before).answer ≡ second_wanted self.now before) }
        ensures after { let at = lent first_cells.old (H.meaning first_host.old)
            second_cells.old (K.meaning second_host.old) other.old in
            let before = both_over (machine_of first.old) (machine_of second.old) at in
            let to = lent first_cells.new (H.meaning first_host.new)
            second_cells.new (K.meaning second_host.new) other.new in
            both_over (machine_of first.new) (machine_of second.new) to ≡ both_after self.now before }
        ensures first_lender { H.roots first_host.new ≡ H.roots first_host.old }
        ensures second_lender { K.roots second_host.new ≡ K.roots second_host.old }
    {
        let answer = first.answer(&self.first, self.request, first_cells, first_host, other);
        let steps = met(answer);
        let request = asked_then(self.request, steps);
        let told = second.answer(&self.second, request, second_cells, second_host, other);
        (steps, are_same(told, wanted(answer, steps)))
    }
}

/// Asks both machines one request after the other, up to the first permit fault of the first machine or the first answer that
/// the second should not give.
pub(crate) fn ask_all<H: Host, K: Host>(
    pairings: &[Pairing],
    first: &mut Machine,
    first_cells: &mut [u32],
    first_host: &mut H,
    second: &mut Machine,
    second_cells: &mut [u32],
    second_host: &mut K,
    other: &mut [u32],
) -> Outcome
    ensures compared { let at = lent first_cells.old (H.meaning first_host.old)
        second_cells.old (K.meaning second_host.old) other.old in
        let before = both_over (machine_of first.old) (machine_of second.old) at in
        let to = lent first_cells.new (H.meaning first_host.new)
        second_cells.new (K.meaning second_host.new) other.new in
        Compared pairings.now 0 before (end_at result (both_over (machine_of first.new) (machine_of second.new) to)) }
    ensures first_lender { H.roots first_host.new ≡ H.roots first_host.old }
    ensures second_lender { K.roots second_host.new ≡ K.roots second_host.old }
{
    for (at, pairing) in pairings.iter().enumerate() {
        let (steps, agreed) = pairing.ask(
            first,
            first_cells,
            first_host,
            second,
            second_cells,
            second_host,
            other,
        );
        if !agreed {
            return Outcome::Different { at };
        }
        if let Some(steps) = steps {
            return Outcome::PermitFault { at, steps };
        }
    }
    Outcome::Same
}

/// How many calls both machines answered alike, of so many.
pub(crate) fn agreed(outcome: Outcome, all: usize) -> usize
    ensures { result ≡ agreed outcome all }
{
    match outcome {
        Outcome::Same => all,
        Outcome::PermitFault { at, .. } | Outcome::Different { at } => at,
    }
}
