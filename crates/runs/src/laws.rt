//! The laws of runs, for all machines, permits, budgets and lists.

ghost use Rattle.std.specs.Prelude.{◌≡◌, ℕ, true, List};
ghost use Rattle.permit.specs.Rights.{Rights};
ghost use Rattle.runs.specs.Agreement.{NeverDifferent};
ghost use Rattle.runs.specs.Compared.{Both, End, Compared, OneEnd};
ghost use Rattle.runs.specs.Laws.{SameUnderLargerBudgets, SameUnderWiderPermits, SpentAtPermitFaults};
ghost use Rattle.runs.specs.Parts.{LeavesOther, OneRunOfTheSum};
ghost use Rattle.runs.specs.Runs.{Held, Settings, called};
ghost use Rattle.runs.specs.Steps.{TakesItsSteps};
ghost use Rattle.runs.specs.declared.comparison.Pairing.{Pairing};
ghost use Rattle.runs.specs.declared.request.PermittedRequest.{PermittedRequest};

/// The laws of one run, of a list of requests, and of two machines, whether or not a run is taken.
#[tactic(auto, using(crate::proofs::InTurn::takes_its_steps, crate::proofs::Larger::same_under_larger, crate::proofs::WiderRuns::same_under_wider, crate::proofs::Faulting::spent_at_permit_faults, crate::proofs::InParts::one_run, crate::proofs::InParts::leaves_other, crate::proofs::Comparing::one_end, crate::proofs::Agreeing::never_different))]
pub fn runs_stand() -> bool
    ensures value { result ≡ true }
    ensures steps { (s : Settings) → (h : Held) → TakesItsSteps s h (called s h).answer (called s h).held }
    ensures larger { (s : Settings) → (h : Held) → SameUnderLargerBudgets s h }
    ensures wider { (s : Settings) → (h : Held) → SameUnderWiderPermits s h }
    ensures spent { (s : Settings) → (h : Held) → SpentAtPermitFaults s h }
    ensures sum { (p : Rights) → (xs : List PermittedRequest) → (h : Held) → (o : List ℕ) → OneRunOfTheSum p xs h o }
    ensures kept { (xs : List PermittedRequest) → (h : Held) → (o : List ℕ) → LeavesOther xs h o }
    ensures end { (xs : List Pairing) → (b : Both) → OneEnd xs b }
    ensures never { (xs : List Pairing) → (b : Both) → (e : End) → Compared xs 0 b e → NeverDifferent xs b e }
{
    true
}
