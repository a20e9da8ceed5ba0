//! Making a tape of lines.

ghost use Rattle.std.specs.Prelude.{◌≡◌};
ghost use Rattle.item_lines.specs.Made.{Makes, MakesAgain, after_reading};
ghost use Rattle.item_lines.specs.Numbers.{number_of};
ghost use Rattle.item_lines.specs.declared.make.MakeError.TheVariants.{TooMany, Memory};

use crate::read::{ReadError, read_items};
use host::room::NoRoom;
use host::transcript::write_items;
use std::alloc::{AllocError, Global};

/// The most items that are written.
const MOST: usize = 65_536;

/// Why no tape is made.
#[derive(Clone, Copy)]
pub enum MakeError {
    /// The line with this number, counted from 1, is no item's.
    Line(usize),
    /// 46: are there 65,536 items or fewer?
    TooMany,
    /// There is no memory.
    Memory,
}

impl MakeError {
    /// The number by which the refusal is reported, if it has one.
    pub fn number(self) -> Option<u8>
        ensures { result ≡ number_of self }
    {
        match self {
            MakeError::TooMany => Some(46),
            MakeError::Line(_) | MakeError::Memory => None,
        }
    }
}

impl From<ReadError> for MakeError {
    ghost from_gives = { λ error result. result ≡ after_reading error };

    fn from(error: ReadError) -> MakeError {
        match error {
            ReadError::Line(number) => MakeError::Line(number),
            ReadError::Memory => MakeError::Memory,
        }
    }
}

impl From<AllocError> for MakeError {
    ghost from_gives = { λ _ result. result ≡ Memory };

    fn from(_: AllocError) -> MakeError {
        MakeError::Memory
    }
}

impl From<NoRoom> for MakeError {
    ghost from_gives = { λ _ result. result ≡ TooMany };

    fn from(_: NoRoom) -> MakeError {
        MakeError::TooMany
    }
}

/// The tape of the items whose lines a text is. Of the lines that show a tape that ends clean it is that tape.
pub fn make_tape(heap: Global, text: &[u8]) -> Result<Vec<u8>, MakeError>
    ensures lines { Makes text.now result }
    ensures back { MakesAgain text.now result }
{
    let items = read_items(heap, text)?;
    if items.len() > MOST {
        return Err(MakeError::TooMany);
    }
    let mut tape = vec![in heap; 0u8; 9 * items.len()]?;
    let length = write_items(items.as_slice(), tape.as_mut_slice())?;
    tape.truncate(length);
    Ok(tape)
}
