//! Runs the table of permit cases on standard input. Each line is a case:
//!
//! ```text
//! NAME CHANGE.. then CHANGE..
//! ```
//!
//! A change is `register=R:L`, `segment=S:L` or `stack=N`, with any numbers of 64 bits in decimal. The changes before `then`
//! are made to a new permit, and those after it to a copy of that. For each change it prints what was answered, and then
//! the permit: its 16 register levels, the level of the code and of the constants with what each allows (`r` reading, `w`
//! writing), and the stack's maximum. At the end of a case it prints whether each of the two permits is at least as open as
//! the other.

#![tactic(auto)]

mod change;
mod run;
mod show;

use run::run_line;
use std::io::{BufRead, BufReader};

fn main(rt: HostRuntime) -> anyhow::Result<()> {
    for line in BufReader::new(rt.alloc(), rt.stdin())?.lines(rt.alloc()) {
        let text = line?;
        run_line(&rt, text.as_str())?;
    }
    Ok(())
}
