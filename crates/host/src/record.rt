//! The records of a sheet.

ghost use Rattle.std.specs.Prelude.{◌≡◌};
ghost use Rattle.host.specs.Sheets.{record_of};

use crate::item::Item;

/// A record: kind 1 is a number, 2 a real and 3 a character, and `value` has its bits. Any other kind may be lent, and
/// is no item.
#[derive(Clone, Copy, PartialEq, Eq)]
pub struct Record {
    pub kind: u32,
    pub value: u64,
}

/// The record of an item.
impl From<Item> for Record {
    ghost from_gives = { λ item result. result ≡ record_of item };

    fn from(item: Item) -> Record {
        let (kind, value) = match item {
            Item::Number(n) => (1, u64::from(n)),
            Item::Real(n) => (2, n),
            Item::Character(n) => (3, u64::from(n)),
        };
        Record { kind, value }
    }
}
