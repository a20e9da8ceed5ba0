//! Units that items are written in.

ghost use Rattle.std.specs.Prelude.{◌≡◌, ℕ, true, All};
ghost use Rattle.host.specs.Codes.{Code, CodeLaws};
ghost use Rattle.host.specs.Firsts.{found_first, StandsFirst};
ghost use Rattle.host.specs.Pushed.{push_answer, items_pushed, length_pushed};
ghost use Rattle.host.specs.Ranges.{InRange};

use crate::found::Found;
use crate::item::Item;
use crate::refusal::Refusal;
use bounded::list::{BoundedList, Full};

/// A unit of a code for items, as the byte of a tape and the record of a sheet.
pub trait CodeUnit: Copy {
    ghost code: { Code Self };

    ghost MOST: { ℕ };

    // what holds of the code, whatever its unit
    ghost laws: { CodeLaws code MOST };

    /// The most units that an item takes.
    const MOST: u8;

    /// Reads the item that stands first, or says why there is none. All values that can stand there are units.
    fn first_of(units: &[Self]) -> Result<Found, Refusal>
        ensures value { result ≡ found_first code units.now }
        ensures first { StandsFirst code units.now result }
        ensures units { All (λ u. code.is_unit u ≡ true) units.now };

    /// Appends the units of an item to a list, or refuses where it has no room for all of them and changes nothing.
    fn push_item(item: Item, list: &mut BoundedList<'_, Self>) -> Result<(), Full>
        ensures value { result ≡ push_answer (code.coded item) list.old }
        ensures items { list.new.items.now ≡ items_pushed (code.coded item) list.old }
        ensures count { list.new.len ≡ length_pushed (code.coded item) list.old }
        ensures lender { list.new.items.ghost_name ≡ list.old.items.ghost_name }
        ensures range { InRange item };
}
