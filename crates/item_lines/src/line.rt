//! The line of an item.

ghost use Rattle.std.specs.Prelude.{◌≡◌, IfOk, string_bytes};
ghost use Rattle.host.specs.Ranges.{InRange};
ghost use Rattle.item_lines.specs.Lines.{item_text};

use host::item::Item;
use std::alloc::{AllocError, Global};

/// The text of an item's line: its kind and its value, a real by its 64 bits in hexadecimal.
pub fn item_text(heap: Global, item: Item) -> Result<String, AllocError>
    ensures text { IfOk result (λ s. string_bytes s ≡ item_text item) }
    ensures range { InRange item }
{
    match item {
        Item::Number(number) => format!(in heap; "number {number}"),
        Item::Real(bits) => {
            let digits = hex::encode(heap, bits.to_be_bytes())?;
            format!(in heap; "real 0x{digits}")
        }
        Item::Character(character) => format!(in heap; "character {character}"),
    }
}
