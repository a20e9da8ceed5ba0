//! A host over what is lent to it, for any unit.

ghost use Rattle.std.specs.Prelude.{◌+◌, ◌*◌, ◌≤◌};
ghost use Rattle.bounded.specs.Held.{entries, room};
ghost use Rattle.host.specs.Lent.{IsCoded};

use crate::code_unit::CodeUnit;
use bounded::list::BoundedList;

pub mod calls;
mod writes;

/// A host over lent units: what waits is in `input`, and `output` is the list of the units that were written.
#[derive(Drop)]
pub struct LentHost<'i, 'o, U: CodeUnit> {
    input: &'i [U],
    output: BoundedList<'o, U>,
    left: usize,
    ghost fits: { output.len + U.MOST * left ≤ room output },
    ghost coded: { IsCoded U.code (entries output) },
}
