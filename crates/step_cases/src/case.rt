//! The cases of the table.

use crate::setup::Setup;
use anyhow::Context;
use cases::words::next_word;
use machine::layout::Layout;

/// The case of a line.
#[derive(Drop)]
pub(crate) struct Case {
    pub(crate) name: String,
    pub(crate) layout: Layout,
    pub(crate) steps: u32,
    pub(crate) setup: Setup,
}

/// Reads the case of a line.
pub(crate) fn read_case(rt: &HostRuntime, line: &str) -> anyhow::Result<Case> {
    let heap = rt.alloc();
    let mut words = line.split_whitespace();
    let name = words.next().context("a line is empty")?.to_string(heap)?;
    let size = next_word(&mut words, "size")?.parse()?;
    let layout = Layout {
        code: next_word(&mut words, "code")?.parse()?,
        constants: next_word(&mut words, "constants")?.parse()?,
        stack: next_word(&mut words, "stack")?.parse()?,
    };
    let steps = next_word(&mut words, "steps")?.parse()?;
    let mut setup = Setup::new(rt, size)?;
    for word in words {
        setup.set(rt, word)?;
    }
    Ok(Case {
        name,
        layout,
        steps,
        setup,
    })
}
