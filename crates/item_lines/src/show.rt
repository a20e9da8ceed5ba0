//! Showing items as lines.

ghost use Rattle.std.specs.Prelude.{◌≡◌, ◌++◌, IfOk, OnOk};
ghost use Rattle.item_lines.specs.Lines.{item_line, item_lines};
ghost use Rattle.item_lines.specs.Tapes.{end_lines, tape_lines};

use crate::line::item_text;
use crate::tape::read_tape;
use host::item::Item;
use std::alloc::{AllocError, Global};

/// Appends the line of an item to a page.
pub(crate) fn push_line(page: &mut Vec<u8>, heap: Global, item: Item) -> Result<(), AllocError>
    ensures { OnOk result (page.new.items ≡ page.old.items ++ item_line item) }
{
    let text = item_text(heap, item)?;
    page.extend_from_slice(text.as_bytes())?;
    page.push(b'\n').map_err(AllocError::from)
}

/// The lines of items, one after the other.
pub fn show_items(heap: Global, items: &[Item]) -> Result<Vec<u8>, AllocError>
    ensures { IfOk result (λ page. page.items ≡ item_lines items.now) }
{
    let mut page = Vec::new(heap);
    for item in items {
        push_line(&mut page, heap, *item)?;
    }
    Ok(page)
}

/// Appends the line that tells where a tape is spoiled, if it is.
fn push_end(page: &mut Vec<u8>, heap: Global, spoiled: Option<usize>) -> Result<(), AllocError>
    ensures { OnOk result (page.new.items ≡ page.old.items ++ end_lines spoiled) }
{
    let Some(place) = spoiled else {
        return Ok(());
    };
    let line = format!(in heap; "spoiled at byte {place}\n")?;
    page.extend_from_slice(line.as_bytes())
}

/// The lines of the items on a tape, and of a spoiled end the place.
pub fn show_tape(heap: Global, tape: &[u8]) -> Result<Vec<u8>, AllocError>
    ensures { IfOk result (λ page. page.items ≡ tape_lines tape.now) }
{
    let contents = read_tape(heap, tape)?;
    let mut page = show_items(heap, contents.items.as_slice())?;
    push_end(&mut page, heap, contents.spoiled)?;
    Ok(page)
}
