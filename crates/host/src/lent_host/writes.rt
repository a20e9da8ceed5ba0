//! The writes that a lent output has room for.

ghost use Rattle.std.specs.Prelude.{◌≡◌};
ghost use Rattle.host.specs.Rooms.{room_for, writes_left};

use crate::code_unit::CodeUnit;
use crate::room::ask_units;

/// The writes over so many units: those asked for, or none where there is no room for all of them.
pub(crate) fn writes_left<U: CodeUnit>(units: usize, writes: usize) -> usize
    ensures { result ≡ writes_left (room_for U.MOST units writes) writes }
{
    ask_units::<U>(units, writes).map_or(0, |()| writes)
}
