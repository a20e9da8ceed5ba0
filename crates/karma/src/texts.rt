//! The commands assemble, list, check, same, tape show and tape make.

use crate::files::{read, write};
use reply::named::Named;
use reply::reply::Reply;
use text_replies::{assembling, checking, listed, sameness, tapes};

/// Assembles a source into an executable file.
pub(crate) fn assemble(rt: &HostRuntime, source: &str, executable: &str) -> anyhow::Result<Reply> {
    let text = read(rt, source)?;
    let assembly = assembling::assemble(rt.alloc(), text.as_slice())?;
    if let Some(bytes) = &assembly.executable {
        write(rt, executable, bytes.as_slice())?;
    }
    Ok(assembly.reply)
}

/// Lists an executable.
pub(crate) fn list(rt: &HostRuntime, executable: &str) -> anyhow::Result<Reply> {
    let bytes = read(rt, executable)?;
    Ok(listed::list(rt.alloc(), bytes.as_slice())?)
}

/// Checks the listing of an executable.
pub(crate) fn check(rt: &HostRuntime, executable: &str, listing: &str) -> anyhow::Result<Reply> {
    let (bytes, text) = (read(rt, executable)?, read(rt, listing)?);
    Ok(checking::check(rt.alloc(), bytes.as_slice(), text.as_slice())?)
}

/// Compares two executables.
pub(crate) fn compare(rt: &HostRuntime, first: &str, second: &str) -> anyhow::Result<Reply> {
    let (left, right) = (read(rt, first)?, read(rt, second)?);
    Ok(sameness::compare(
        rt.alloc(),
        Named {
            name: first,
            bytes: left.as_slice(),
        },
        Named {
            name: second,
            bytes: right.as_slice(),
        },
    )?)
}

/// Shows a tape.
pub(crate) fn show_tape(rt: &HostRuntime, tape: &str) -> anyhow::Result<Reply> {
    let bytes = read(rt, tape)?;
    Ok(tapes::show(rt.alloc(), bytes.as_slice())?)
}

/// Makes a tape of a text.
pub(crate) fn make_tape(rt: &HostRuntime, text: &str, tape: &str) -> anyhow::Result<Reply> {
    let lines = read(rt, text)?;
    let taping = tapes::make(
        rt.alloc(),
        Named {
            name: text,
            bytes: lines.as_slice(),
        },
    )?;
    if let Some(bytes) = &taping.tape {
        write(rt, tape, bytes.as_slice())?;
    }
    Ok(taping.reply)
}
