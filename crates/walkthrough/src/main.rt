//! Walks through all commands of the tool. Standard input has lines of words as they stand behind the tool's name on a command
//! line, parted by blanks; from `#` on, a line is a comment. For each line it prints the words, what the tool prints for them,
//! and the status with which it ends.
//!
//! The files that a command reads are those in the folder where it runs, and those that commands before it made: these are
//! kept in memory.

#![tactic(auto)]

mod obey;
mod records;
mod running;
mod shelf;
mod texts;
mod watching;
mod words;

use command_line::command::read_command;
use command_line::misuse::misuse_text;
use obey::obey;
use shelf::Shelf;
use std::io::{BufRead, BufReader, Write};
use words::words_of;

/// Prints a page and a status.
fn show(rt: &HostRuntime, page: &[u8], done: bool) -> anyhow::Result<()> {
    rt.stdout().write_all(page)?;
    let status = if done { 0 } else { 1 };
    println!(rt; "status {status}\n")?;
    Ok(())
}

/// Does what some words ask, and prints what comes of it.
fn follow(rt: &HostRuntime, shelf: &mut Shelf, words: &[&str]) -> anyhow::Result<()> {
    let command = match read_command(words) {
        Ok(command) => command,
        Err(misuse) => {
            let text = misuse_text(rt.alloc(), misuse)?;
            println!(rt; "{text}")?;
            return show(rt, b"", false);
        }
    };
    match obey(rt, shelf, command) {
        Ok(reply) => show(rt, reply.page.as_slice(), reply.done),
        Err(error) => {
            println!(rt; "karma: {error:#}")?;
            show(rt, b"", false)
        }
    }
}

/// Prints a line of the input, and follows it where it has words.
fn read_line(rt: &HostRuntime, shelf: &mut Shelf, line: &str) -> anyhow::Result<()> {
    let words = words_of(rt.alloc(), line)?;
    if words.is_empty() {
        println!(rt; "{line}")?;
        return Ok(());
    }
    println!(rt; "$ karma {line}")?;
    follow(rt, shelf, words.as_slice())
}

fn main(rt: HostRuntime) -> anyhow::Result<()> {
    let mut shelf = Shelf::new(rt.alloc());
    for line in BufReader::new(rt.alloc(), rt.stdin())?.lines(rt.alloc()) {
        let text = line?;
        read_line(&rt, &mut shelf, text.as_str())?;
    }
    Ok(())
}
