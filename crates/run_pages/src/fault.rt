//! The page of a fault.

ghost use Rattle.std.specs.Prelude.{◌≡◌, IfOk};
ghost use Rattle.run_pages.specs.Faults.{command_found, command_line, fault_page};

use crate::command::command_text;
use machine::fault::Fault;
use sentences::page::no_line;
use std::alloc::{AllocError, Global};

/// The text of the command that a word is, or of none where the address has no word.
fn command_found(heap: Global, word: Option<u32>) -> Result<Vec<u8>, AllocError>
    ensures { IfOk result (λ text. text.items ≡ command_found word) }
{
    match word {
        Some(word) => command_text(heap, word),
        None => Vec::from_slice(heap, b"none, the address is outside memory"),
    }
}

/// The line of the command at an address, given the word there, if there is one.
fn command_line(heap: Global, address: u32, word: Option<u32>) -> Result<Vec<u8>, AllocError>
    ensures { IfOk result (λ line. line.items ≡ command_line address word) }
{
    let command = command_found(heap, word)?;
    let head = format!(in heap; "command at {address}: ")?;
    let mut line = head.into_bytes();
    line.extend_from_slice(command.as_slice())?;
    line.push(b'\n').map_err(AllocError::from)?;
    Ok(line)
}

/// The page of a fault: the question that got a no, and the command at its address, given the word there, if there is one.
pub fn fault_page(heap: Global, fault: Fault, word: Option<u32>) -> Result<Vec<u8>, AllocError>
    ensures { IfOk result (λ page. page.items ≡ fault_page fault word) }
{
    let command = command_line(heap, fault.address, word)?;
    let mut page = no_line(heap, fault.cause.number())?.into_bytes();
    page.extend_from_slice(command.as_slice())?;
    Ok(page)
}
