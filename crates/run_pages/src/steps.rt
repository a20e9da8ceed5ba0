//! The lines of steps.

ghost use Rattle.std.specs.Prelude.{◌≡◌, ◌++◌, IfOk, OnOk};
ghost use Rattle.run_pages.specs.Steps.{step_line, steps_page};

use crate::changes::changes_text;
use crate::command::command_text;
use crate::step::Step;
use std::alloc::{AllocError, Global};

/// The line of a step: its number, its address, its command, and what it changed.
pub fn step_line(heap: Global, step: &Step) -> Result<Vec<u8>, AllocError>
    ensures { IfOk result (λ line. line.items ≡ step_line step.now) }
{
    let number = step.number;
    let address = step.address;
    let command = command_text(heap, step.word)?;
    let changes = changes_text(heap, step)?;
    let head = format!(in heap; "step {number} address {address} ")?;
    let mut line = head.into_bytes();
    line.extend_from_slice(command.as_slice())?;
    line.extend_from_slice(b": ")?;
    line.extend_from_slice(changes.as_slice())?;
    line.push(b'\n').map_err(AllocError::from)?;
    Ok(line)
}

/// Appends the line of a step to a page.
fn push_line(page: &mut Vec<u8>, heap: Global, step: &Step) -> Result<(), AllocError>
    ensures { OnOk result (page.new.items ≡ page.old.items ++ step_line step.now) }
{
    let line = step_line(heap, step)?;
    page.extend_from_slice(line.as_slice())
}

/// The lines of steps, one after the other.
pub fn steps_page(heap: Global, steps: &[Step]) -> Result<Vec<u8>, AllocError>
    ensures { IfOk result (λ page. page.items ≡ steps_page steps.now) }
{
    let mut page = Vec::new(heap);
    for step in steps {
        push_line(&mut page, heap, step)?;
    }
    Ok(page)
}
