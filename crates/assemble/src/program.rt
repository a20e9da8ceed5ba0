//! The program, over any output for its report.

use anyhow::anyhow;
use report::refused::refusal_line;
use report::success::success_lines;
use std::alloc::AllocError;
use std::fs;
use std::io::Write;
use tasks::assembling::{AssembleError, Assembled, assemble_source};

/// Writes the executable file and reports its numbers and the labels.
fn finish<W: Write>(
    rt: &HostRuntime,
    output: &mut W,
    name: &str,
    text: &[u8],
    assembled: &Assembled,
) -> anyhow::Result<()> {
    let labels = assembled.labels.as_slice();
    let lines = success_lines(rt.alloc(), text, labels, assembled.summary)?;
    fs::write(rt, name, assembled.bytes.as_slice())?;
    output.write_all(lines.as_slice())?;
    Ok(())
}

/// Assembles a text into a file, or reports its refusal.
fn assemble_text<W: Write>(
    rt: &HostRuntime,
    output: &mut W,
    text: &[u8],
    name: &str,
) -> anyhow::Result<()> {
    match assemble_source(rt.alloc(), text) {
        Ok(assembled) => finish(rt, output, name, text, &assembled),
        Err(AssembleError::Refused(refusal)) => {
            let line = refusal_line(rt.alloc(), refusal)?;
            output.write_all(line.as_bytes())?;
            Err(anyhow!("refused"))
        }
        Err(AssembleError::Memory) => Err(AllocError.into()),
    }
}

/// Assembles a source file into an executable file. No file is written where the text is refused.
pub(crate) fn run<W: Write>(
    rt: &HostRuntime,
    output: &mut W,
    source: &str,
    executable: &str,
) -> anyhow::Result<()> {
    let text = fs::read(rt, source).map_err(|error| anyhow!("{source}: {error}"))?;
    assemble_text(rt, output, text.as_slice(), executable)
}
