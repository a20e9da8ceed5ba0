//! The tape host: items as bytes.

ghost use Rattle.std.specs.Prelude.{◌≡◌, ◌∷◌};
ghost use Rattle.host.specs.Pushed.{push_answer, items_pushed, length_pushed};
ghost use Rattle.host.specs.Tapes.{first_on, tape_code};
ghost use Rattle.host.specs.TapeLaws.{tape_laws};

use crate::code_unit::CodeUnit;
use crate::found::Found;
use crate::item::Item;
use crate::lent_host::LentHost;
use crate::refusal::Refusal;
use bounded::list::{BoundedList, Full};

/// A host over lent bytes.
pub type Tape<'i, 'o> = LentHost<'i, 'o, u8>;

impl CodeUnit for u8 {
    ghost code = { tape_code };

    ghost MOST = { 9 };

    ghost laws = { tape_laws };

    const MOST: u8 = 9;

    fn first_of(units: &[u8]) -> Result<Found, Refusal> {
        read_first(units)
    }

    fn push_item(item: Item, list: &mut BoundedList<'_, u8>) -> Result<(), Full> {
        match item {
            Item::Number(n) => push_command(b'N', &n.to_le_bytes(), list),
            Item::Real(n) => push_command(b'D', &n.to_le_bytes(), list),
            Item::Character(c) => push_command(b'C', &[c], list),
        }
    }
}

/// Reads what stands first.
fn read_first(bytes: &[u8]) -> Result<Found, Refusal>
    ensures { result ≡ first_on bytes.now }
{
    let (item, units) = match bytes {
        [] => return Err(Refusal::NothingWaits),
        [b'N', a, b, c, d, ..] => (Item::Number(u32::from_le_bytes([*a, *b, *c, *d])), 5),
        [b'D', a, b, c, d, e, f, g, h, ..] => (
            Item::Real(u64::from_le_bytes([*a, *b, *c, *d, *e, *f, *g, *h])),
            9,
        ),
        [b'C', a, ..] => (Item::Character(*a), 2),
        _ => return Err(Refusal::SpoiledEnd),
    };
    Ok(Found { item, units })
}

/// Appends a command and its operand to a list, or refuses where it has no room for both and changes nothing.
fn push_command(command: u8, operand: &[u8], list: &mut BoundedList<'_, u8>) -> Result<(), Full>
    ensures value { result ≡ push_answer (command ∷ operand.now) list.old }
    ensures items { list.new.items.now ≡ items_pushed (command ∷ operand.now) list.old }
    ensures count { list.new.len ≡ length_pushed (command ∷ operand.now) list.old }
    ensures lender { list.new.items.ghost_name ≡ list.old.items.ghost_name }
{
    let free = list.capacity() - list.len();
    if operand.len() >= free {
        return Err(Full);
    }
    list.push(command)?;
    for byte in operand {
        list.push(*byte)?;
    }
    Ok(())
}
