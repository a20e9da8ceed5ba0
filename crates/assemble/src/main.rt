//! Assembles a source file into an executable file and prints a report: `assemble SOURCE EXECUTABLE`.

#![tactic(auto)]

mod program;
#[cfg(test)]
mod tests;

use anyhow::anyhow;
use program::run;
use std::env;
use std::process::ExitCode;

/// The names of the two files.
#[derive(Drop)]
struct Names {
    source: String,
    executable: String,
}

/// The names that the program is given.
fn given_names(rt: &HostRuntime) -> anyhow::Result<Names> {
    let mut words = env::args(rt)?.skip(1);
    match (words.next(), words.next(), words.next()) {
        (Some(source), Some(executable), None) => Ok(Names { source, executable }),
        _ => Err(anyhow!("usage: assemble SOURCE EXECUTABLE")),
    }
}

/// Assembles the file that the program is given.
fn work(rt: &HostRuntime) -> anyhow::Result<()> {
    let names = given_names(rt)?;
    run(
        rt,
        &mut rt.stdout(),
        names.source.as_str(),
        names.executable.as_str(),
    )
}

/// Writes the error to standard error.
fn tell(rt: &HostRuntime, error: &anyhow::Error) -> anyhow::Result<()> {
    eprintln!(rt; "assemble: {error}")?;
    Ok(())
}

fn main(rt: HostRuntime) -> ExitCode {
    match work(&rt) {
        Ok(()) => ExitCode::SUCCESS,
        Err(error) => {
            let _ = tell(&rt, &error);
            ExitCode::FAILURE
        }
    }
}
