//! The archive's tool: `karma help` tells its commands.

#![tactic(auto)]

mod files;
mod records;
mod running;
mod texts;
mod watching;

use command_line::command::{Command, read_command};
use command_line::misuse::misuse_text;
use files::print;
use reply::reply::Reply;
use std::env;
use std::process::ExitCode;
use text_replies::helping::help;

/// Does what a command asks.
fn obey(rt: &HostRuntime, command: Command<'_>) -> anyhow::Result<Reply> {
    match command {
        Command::Help { about } => Ok(help(rt.alloc(), about)?),
        Command::Assemble { source, executable } => texts::assemble(rt, source, executable),
        Command::List { executable } => texts::list(rt, executable),
        Command::Check {
            executable,
            listing,
        } => texts::check(rt, executable, listing),
        Command::Same { first, second } => texts::compare(rt, first, second),
        Command::Run {
            executable,
            options,
        } => running::run(rt, executable, &options),
        Command::Compare {
            executable,
            first,
            second,
            options,
        } => running::compare(rt, executable, first, second, &options),
        Command::ShowTape { tape } => texts::show_tape(rt, tape),
        Command::MakeTape { text, tape } => texts::make_tape(rt, text, tape),
        Command::File {
            record,
            source,
            readings,
            permit,
        } => records::file(rt, record, source, readings, permit),
        Command::Replay { record } => records::replay(rt, record),
    }
}

/// Prints what a command replies, and answers whether all of it was done and agrees.
fn answer(rt: &HostRuntime, command: Command<'_>) -> anyhow::Result<bool> {
    let reply = obey(rt, command)?;
    print(rt, reply.page.as_slice())?;
    Ok(reply.done)
}

/// Reads the words after the program's name, and does what they ask.
fn work(rt: &HostRuntime) -> anyhow::Result<bool> {
    let mut words = Vec::new(rt.alloc());
    for word in env::args(rt)?.skip(1) {
        words.push(word)?;
    }
    let mut views = Vec::new(rt.alloc());
    for word in words.as_slice() {
        views.push(word.as_str())?;
    }
    match read_command(views.as_slice()) {
        Ok(command) => answer(rt, command),
        Err(misuse) => {
            let text = misuse_text(rt.alloc(), misuse)?;
            eprintln!(rt; "{text}")?;
            Ok(false)
        }
    }
}

/// Writes an error to standard error.
fn tell(rt: &HostRuntime, error: &anyhow::Error) -> anyhow::Result<()> {
    eprintln!(rt; "karma: {error:#}")?;
    Ok(())
}

fn main(rt: HostRuntime) -> ExitCode {
    match work(&rt) {
        Ok(true) => ExitCode::SUCCESS,
        Ok(false) => ExitCode::FAILURE,
        Err(error) => {
            let _ = tell(&rt, &error);
            ExitCode::FAILURE
        }
    }
}
