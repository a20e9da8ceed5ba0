//! The room that is asked for before a host is made.

ghost use Rattle.std.specs.Prelude.{◌≡◌, length};
ghost use Rattle.host.specs.Rooms.{room_for, room_answer};

use crate::code_unit::CodeUnit;

/// 46: are 65,536 writes or fewer asked for, with room for each?
#[derive(Clone, Copy)]
pub struct NoRoom;

impl NoRoom {
    /// The number by which the refusal is reported.
    pub fn number(self) -> u8
        ensures { result ≡ 46 }
    {
        46
    }
}

/// Question 46 of an output: as many units for each write as the longest item takes. That is 9 bytes of a tape, or one
/// record of a sheet.
pub fn ask_room<U: CodeUnit>(output: &[U], writes: usize) -> Result<(), NoRoom>
    ensures { result ≡ room_answer (room_for U.MOST (length output.now) writes) }
{
    ask_units::<U>(output.len(), writes)
}

/// Question 46 of so many units.
pub(crate) fn ask_units<U: CodeUnit>(units: usize, writes: usize) -> Result<(), NoRoom>
    ensures { result ≡ room_answer (room_for U.MOST units writes) }
{
    if writes <= 65_536 && usize::from(U::MOST) * writes <= units {
        Ok(())
    } else {
        Err(NoRoom)
    }
}
