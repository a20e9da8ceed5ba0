//! What is on a tape.

ghost use Rattle.std.specs.Prelude.{IfOk};
ghost use Rattle.item_lines.specs.Tapes.{HasContents};

use host::code_unit::CodeUnit;
use host::item::Item;
use host::refusal::Refusal;
use std::alloc::{AllocError, Global};

/// The items on a tape, and the place at which it is spoiled, if it is.
#[derive(Drop)]
pub struct Contents {
    pub items: Vec<Item>,
    pub spoiled: Option<usize>,
}

/// What is on a tape.
pub fn read_tape(heap: Global, tape: &[u8]) -> Result<Contents, AllocError>
    ensures { IfOk result (λ c. HasContents tape.now c) }
{
    let mut items = Vec::new(heap);
    let mut place = 0;
    let mut rest = tape;
    loop {
        match u8::first_of(rest) {
            Ok(found) => {
                items.push(found.item).map_err(AllocError::from)?;
                place += found.units;
                rest = &rest[found.units..];
            }
            Err(Refusal::SpoiledEnd) => {
                return Ok(Contents {
                    items,
                    spoiled: Some(place),
                });
            }
            Err(_) => {
                return Ok(Contents {
                    items,
                    spoiled: None,
                });
            }
        }
    }
}
