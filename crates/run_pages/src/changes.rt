//! What a step changed.

ghost use Rattle.std.specs.Prelude.{◌≡◌, ◌<◌, IfOk, OnOk};
ghost use Rattle.run_pages.specs.Changes.{held, held_in_register, held_in_flags, parted, with_change, comma_joined, changes, changes_text};

use crate::step::Step;
use std::alloc::{AllocError, Global};

/// Appends a comma to a list, if anything stands in it.
fn part(list: &mut Vec<u8>) -> Result<(), AllocError>
    ensures { OnOk result (list.new.items ≡ parted list.old.items) }
{
    if list.is_empty() {
        return Ok(());
    }
    list.extend_from_slice(b", ")
}

/// Appends to a list what a step did to a register or to the flags, if it changed it.
fn push_change(
    list: &mut Vec<u8>,
    heap: Global,
    name: &str,
    before: u32,
    after: u32,
) -> Result<(), AllocError>
    ensures { OnOk result (list.new.items ≡ with_change list.old.items (held name.now before after)) }
{
    if before == after {
        return Ok(());
    }
    part(list)?;
    let change = format!(in heap; "{name} {before} -> {after}")?;
    list.extend_from_slice(change.as_bytes())
}

/// Appends to a list what a step did to one of the registers 0 to 15, if it changed it.
fn push_register(
    list: &mut Vec<u8>,
    heap: Global,
    step: &Step,
    number: usize,
) -> Result<(), AllocError>
    requires { number < 16 }
    ensures { OnOk result (list.new.items ≡ with_change list.old.items (held_in_register step.now number)) }
{
    let name = format!(in heap; "r{number}")?;
    let before = step.before[number];
    let after = step.after[number];
    push_change(list, heap, name.as_str(), before, after)
}

/// Appends to a list what a step did to the flags, if it changed them.
fn push_flags(list: &mut Vec<u8>, heap: Global, step: &Step) -> Result<(), AllocError>
    ensures { OnOk result (list.new.items ≡ with_change list.old.items (held_in_flags step.now)) }
{
    let before = u32::from(step.flags_before);
    let after = u32::from(step.flags_after);
    push_change(list, heap, "flags", before, after)
}

/// The changes of a step, with commas between them.
fn changes_list(heap: Global, step: &Step) -> Result<Vec<u8>, AllocError>
    ensures { IfOk result (λ list. list.items ≡ comma_joined (changes step.now)) }
{
    let mut list = Vec::new(heap);
    for number in 0..16 {
        push_register(&mut list, heap, step, number)?;
    }
    push_flags(&mut list, heap, step)?;
    Ok(list)
}

/// The text of what a step changed.
pub(crate) fn changes_text(heap: Global, step: &Step) -> Result<Vec<u8>, AllocError>
    ensures { IfOk result (λ text. text.items ≡ changes_text step.now) }
{
    let list = changes_list(heap, step)?;
    if list.is_empty() {
        Vec::from_slice(heap, b"nothing changed")
    } else {
        Ok(list)
    }
}
