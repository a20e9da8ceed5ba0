//! Reading a line.

ghost use Rattle.std.specs.Prelude.{◌≡◌, IfOk};
ghost use Rattle.item_lines.specs.Reading.{number_in, real_in, character_in, item_in};
ghost use Rattle.item_lines.specs.Texts.{Tells};

use crate::line::item_text;
use hex::FromHex;
use host::item::Item;
use numerals::natural::read_natural;
use std::alloc::{AllocError, Global};

/// The number that a word writes.
fn number_in(word: &[u8]) -> Option<Item>
    ensures { result ≡ number_in word.now }
{
    let number = read_natural(word)?;
    u32::try_from(number).ok().map(Item::Number)
}

/// The real whose 64 bits a word writes as sixteen digits.
fn real_in(word: &[u8]) -> Option<Item>
    ensures { result ≡ real_in word.now }
{
    let bytes = <[u8; 8] as FromHex>::from_hex(word).ok()?;
    Some(Item::Real(u64::from_be_bytes(bytes)))
}

/// The character whose code a word writes.
fn character_in(word: &[u8]) -> Option<Item>
    ensures { result ≡ character_in word.now }
{
    let number = read_natural(word)?;
    u8::try_from(number).ok().map(Item::Character)
}

/// The item that a line without its line end tells, if any does: the line of another one is not it.
fn item_in(line: &[u8]) -> Option<Item>
    ensures { result ≡ item_in line.now }
{
    if line.starts_with(b"number ") {
        number_in(&line[7..])
    } else if line.starts_with(b"real 0x") {
        real_in(&line[7..])
    } else if line.starts_with(b"character ") {
        character_in(&line[10..])
    } else {
        None
    }
}

/// The item whose line this is, without its line end, or none.
pub(crate) fn read_line(heap: Global, line: &[u8]) -> Result<Option<Item>, AllocError>
    ensures { IfOk result (λ o. Tells line.now o) }
{
    let Some(item) = item_in(line) else {
        return Ok(None);
    };
    let text = item_text(heap, item)?;
    if text.as_bytes() != line {
        return Ok(None);
    }
    Ok(Some(item))
}
