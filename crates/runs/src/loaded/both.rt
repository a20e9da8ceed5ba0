//! One executable on two machines.

ghost use Rattle.std.specs.Prelude.{◌≡◌};
ghost use Rattle.runs.specs.Both.{lent, Compares, LeavesOther, NeverDiffers};

use crate::comparison::{Comparison, Pairing};
use crate::loaded::Machine;
use crate::loaded::comparing::{agreed, ask_all};
use crate::loading::admit;
use crate::refusal::LoadRefusal;
use host::host::Host;

/// Loads an executable into two memories, asks both machines the same requests one after the other, each under permits of
/// its own, and tells whether and where they part, and how many calls were answered alike before that: they part at the first
/// permit fault of the first machine, or at the first answer that the second should not give. Parts of another memory are
/// handed in where a request says so. If the two memories are equally long and no such part is, the hosts mean the same and
/// the second's permits are at least as open at every run, no answer differs, and after every call both hold the same. A
/// refusal of loading comes before anything is written.
pub fn compare<H: Host, K: Host>(
    executable: &[u8],
    first_cells: &mut [u32],
    first_host: &mut H,
    second_cells: &mut [u32],
    second_host: &mut K,
    other: &mut [u32],
    pairings: &[Pairing],
) -> Result<Comparison, LoadRefusal>
    ensures compared { let before = lent first_cells.old (H.meaning first_host.old)
        second_cells.old (K.meaning second_host.old) other.old in
        let after = lent first_cells.new (H.meaning first_host.new)
        second_cells.new (K.meaning second_host.new) other.new in
        Compares executable.now pairings.now before result after }
    ensures agree { let before = lent first_cells.old (H.meaning first_host.old)
        second_cells.old (K.meaning second_host.old) other.old in
        let after = lent first_cells.new (H.meaning first_host.new)
        second_cells.new (K.meaning second_host.new) other.new in
        NeverDiffers executable.now pairings.now before result after }
    ensures kept { let before = lent first_cells.old (H.meaning first_host.old)
        second_cells.old (K.meaning second_host.old) other.old in
        let after = lent first_cells.new (H.meaning first_host.new)
        second_cells.new (K.meaning second_host.new) other.new in
        LeavesOther pairings.now before after }
    ensures first_lender { H.roots first_host.new ≡ H.roots first_host.old }
    ensures second_lender { K.roots second_host.new ≡ K.roots second_host.old }
{
    let admitted = admit(executable, first_cells.len())?;
    admit(executable, second_cells.len())?;
    let mut first = Machine::fill_with(executable, &admitted, first_cells);
    let mut second = Machine::fill_with(executable, &admitted, second_cells);
    let outcome = ask_all(
        pairings,
        &mut first,
        first_cells,
        first_host,
        &mut second,
        second_cells,
        second_host,
        other,
    );
    Ok(Comparison {
        outcome,
        agreed: agreed(outcome, pairings.len()),
        first,
        second,
    })
}
