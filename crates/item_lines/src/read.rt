//! Reading the lines of items.

ghost use Rattle.std.specs.Prelude.{◌≡◌, ◌≤◌, ◌==◌, length, IfOk};
ghost use Rattle.std.specs.List.{position_or_len};
ghost use Rattle.item_lines.specs.Texts.{ReadsBack, ReadsItems, StandsFirst};
ghost use Rattle.item_lines.specs.declared.read.ReadError.TheVariants.{Memory};

use crate::reading::read_line;
use host::item::Item;
use std::alloc::{AllocError, Global};

/// Why a text is not read.
#[derive(Clone, Copy)]
pub enum ReadError {
    /// The line with this number, counted from 1, is no item's.
    Line(usize),
    /// There is no memory.
    Memory,
}

impl From<AllocError> for ReadError {
    ghost from_gives = { λ _ result. result ≡ Memory };

    fn from(_: AllocError) -> ReadError {
        ReadError::Memory
    }
}

/// The item whose line stands first, and how many bytes that line has.
#[derive(Clone, Copy)]
struct Front {
    item: Item,
    length: usize,
}

/// How many bytes the first line has without its end, or all where no line ends.
fn line_length(text: &[u8]) -> usize
    ensures value { result ≡ position_or_len (λ b. b == 10) text.now }
    ensures within { result ≤ length text.now }
{
    text.iter()
        .position(|byte| *byte == b'\n')
        .unwrap_or(text.len())
}

/// The item whose line stands first in a text, if one does.
fn first_item(heap: Global, text: &[u8]) -> Result<Option<Front>, AllocError>
    ensures { IfOk result (λ front. StandsFirst text.now front) }
{
    let end = line_length(text);
    if end == text.len() {
        return Ok(None);
    }
    let Some(item) = read_line(heap, &text[..end])? else {
        return Ok(None);
    };
    Ok(Some(Front {
        item,
        length: end + 1,
    }))
}

/// The items of a text of lines, or the first line that is no item's.
pub fn read_items(heap: Global, text: &[u8]) -> Result<Vec<Item>, ReadError>
    ensures lines { ReadsItems text.now result }
    ensures back { ReadsBack text.now result }
{
    let mut items = Vec::new(heap);
    let mut rest = text;
    while !rest.is_empty() {
        let Some(front) = first_item(heap, rest)? else {
            return Err(ReadError::Line(items.len() + 1));
        };
        items.push(front.item).map_err(AllocError::from)?;
        rest = &rest[front.length..];
    }
    Ok(items)
}
