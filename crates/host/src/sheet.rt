//! The sheet host: items as records.

ghost use Rattle.std.specs.Prelude.{◌≡◌};
ghost use Rattle.host.specs.Sheets.{first_on, item_of, record_of, sheet_code};
ghost use Rattle.host.specs.SheetLaws.{sheet_laws};

use crate::code_unit::CodeUnit;
use crate::found::Found;
use crate::item::Item;
use crate::lent_host::LentHost;
use crate::record::Record;
use crate::refusal::Refusal;
use bounded::list::{BoundedList, Full};

/// A host over lent records.
pub type Sheet<'i, 'o> = LentHost<'i, 'o, Record>;

impl CodeUnit for Record {
    ghost code = { sheet_code };

    ghost MOST = { 1 };

    ghost laws = { sheet_laws };

    const MOST: u8 = 1;

    fn first_of(units: &[Record]) -> Result<Found, Refusal> {
        read_first(units)
    }

    fn push_item(item: Item, list: &mut BoundedList<'_, Record>) -> Result<(), Full> {
        list.push(Record::from(item))
    }
}

/// Reads what stands first.
fn read_first(records: &[Record]) -> Result<Found, Refusal>
    ensures { result ≡ first_on records.now }
{
    let record = records.first().ok_or(Refusal::NothingWaits)?;
    let item = item_of(*record).ok_or(Refusal::SpoiledEnd)?;
    Ok(Found { item, units: 1 })
}

/// The item of a record, if it has one.
fn item_of(record: Record) -> Option<Item>
    ensures { result ≡ item_of «record» }
{
    match record.kind {
        1 => u32::try_from(record.value).ok().map(Item::Number),
        2 => Some(Item::Real(record.value)),
        3 => u8::try_from(record.value).ok().map(Item::Character),
        _ => None,
    }
}
