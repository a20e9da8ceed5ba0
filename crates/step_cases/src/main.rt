//! Runs the table of steps on standard input. Each line is a case:
//!
//! ```text
//! NAME SIZE CODE CONSTANTS STACK STEPS SETTING..
//! ```
//!
//! SIZE is how many cells the memory has, CODE and CONSTANTS how many words these segments have, STACK the initial stack
//! pointer, and STEPS how many steps are taken at most. What a setting may be is told in `setup.rt`. For each case it prints
//! how many steps were taken and how the last one ended; each register and each cell that differs from what it was before
//! the first step; the flags; what was written; and what waits then.

#![tactic(auto)]

mod case;
mod run;
mod setup;
mod show;

use run::run_line;
use std::io::{BufRead, BufReader};

fn main(rt: HostRuntime) -> anyhow::Result<()> {
    for line in BufReader::new(rt.alloc(), rt.stdin())?.lines(rt.alloc()) {
        let text = line?;
        run_line(&rt, text.as_str())?;
    }
    Ok(())
}
