//! The commands assemble, list, check, same, tape show and tape make.

use crate::shelf::Shelf;
use reply::named::Named;
use reply::reply::Reply;
use text_replies::{assembling, checking, listed, sameness, tapes};

/// Assembles a source into an executable file.
pub(crate) fn assemble(
    rt: &HostRuntime,
    shelf: &mut Shelf,
    source: &str,
    executable: &str,
) -> anyhow::Result<Reply> {
    let text = shelf.read(rt, source)?;
    let assembly = assembling::assemble(rt.alloc(), text.as_slice())?;
    if let Some(bytes) = &assembly.executable {
        shelf.keep(rt, executable, bytes.as_slice())?;
    }
    Ok(assembly.reply)
}

/// Lists an executable.
pub(crate) fn list(rt: &HostRuntime, shelf: &Shelf, executable: &str) -> anyhow::Result<Reply> {
    let bytes = shelf.read(rt, executable)?;
    Ok(listed::list(rt.alloc(), bytes.as_slice())?)
}

/// Checks the listing of an executable.
pub(crate) fn check(
    rt: &HostRuntime,
    shelf: &Shelf,
    executable: &str,
    listing: &str,
) -> anyhow::Result<Reply> {
    let (bytes, text) = (shelf.read(rt, executable)?, shelf.read(rt, listing)?);
    Ok(checking::check(rt.alloc(), bytes.as_slice(), text.as_slice())?)
}

/// Compares two executables.
pub(crate) fn compare(
    rt: &HostRuntime,
    shelf: &Shelf,
    first: &str,
    second: &str,
) -> anyhow::Result<Reply> {
    let (left, right) = (shelf.read(rt, first)?, shelf.read(rt, second)?);
    Ok(sameness::compare(
        rt.alloc(),
        Named {
            name: first,
            bytes: left.as_slice(),
        },
        Named {
            name: second,
            bytes: right.as_slice(),
        },
    )?)
}

/// Shows a tape.
pub(crate) fn show_tape(rt: &HostRuntime, shelf: &Shelf, tape: &str) -> anyhow::Result<Reply> {
    let bytes = shelf.read(rt, tape)?;
    Ok(tapes::show(rt.alloc(), bytes.as_slice())?)
}

/// Makes a tape of a text.
pub(crate) fn make_tape(
    rt: &HostRuntime,
    shelf: &mut Shelf,
    text: &str,
    tape: &str,
) -> anyhow::Result<Reply> {
    let lines = shelf.read(rt, text)?;
    let taping = tapes::make(
        rt.alloc(),
        Named {
            name: text,
            bytes: lines.as_slice(),
        },
    )?;
    if let Some(bytes) = &taping.tape {
        shelf.keep(rt, tape, bytes.as_slice())?;
    }
    Ok(taping.reply)
}
