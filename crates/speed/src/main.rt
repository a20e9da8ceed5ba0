//! Runs an executable for as many steps as it is told, and prints the ending, the steps, the registers and the flags:
//! `speed EXECUTABLE STEPS`. bench/run.py measures it against an interpreter in C that prints the same.

#![tactic(auto)]

use anyhow::{Context, anyhow};
use host::lent_host::LentHost;
use permit::permit::Permit;
use runs::loaded::Machine;
use runs::report::{Ending, Report};
use runs::settings::Settings;
use std::{env, fs};

/// The cells of the memory.
const CELLS: usize = 1_048_576;

/// What the program is given.
#[derive(Drop)]
struct Words {
    executable: String,
    steps: u64,
}

/// The words that the program is given.
fn given_words(rt: &HostRuntime) -> anyhow::Result<Words> {
    let mut words = env::args(rt)?.skip(1);
    let (Some(executable), Some(steps)) = (words.next(), words.next()) else {
        return Err(anyhow!("usage: speed EXECUTABLE STEPS"));
    };
    let steps = steps.parse().ok().context("STEPS is no number")?;
    Ok(Words { executable, steps })
}

/// Prints how the run ended.
fn show_report(rt: &HostRuntime, report: Report) -> anyhow::Result<()> {
    match report.ending {
        Ending::Spent => println!(rt; "ending spent")?,
        Ending::Halted => println!(rt; "ending halted")?,
        Ending::Exited(code) => println!(rt; "ending exited {code}")?,
        Ending::Fault(fault) => {
            let number = fault.cause.number();
            let address = fault.address;
            println!(rt; "ending fault {number} address {address}")?
        }
    }
    let steps = report.steps;
    println!(rt; "steps {steps}")?;
    Ok(())
}

/// Prints the registers and the flags.
fn show_machine(rt: &HostRuntime, machine: &Machine) -> anyhow::Result<()> {
    for number in 0..16u64 {
        let value = machine
            .register(number)
            .map_err(|_| anyhow!("no such register"))?;
        println!(rt; "r{number} {value}")?;
    }
    let flags = machine.flags();
    println!(rt; "flags {flags}")?;
    Ok(())
}

fn main(rt: HostRuntime) -> anyhow::Result<()> {
    let words = given_words(&rt)?;
    let executable = fs::read(&rt, words.executable.as_str()).context("no such file")?;
    let mut cells = vec![in rt.alloc(); 0u32; CELLS]?;
    let mut output = [0u8; 64];
    let mut host = LentHost::new(&[], &mut output, 4);
    let permit = Permit::new();
    let settings = Settings {
        permit: &permit,
        budget: words.steps,
    };
    let mut machine = Machine::load(executable.as_slice(), cells.as_mut_slice()).map_err(
        |_| anyhow!("the executable is refused"),
    )?;
    let report = machine
        .run(&settings, cells.as_mut_slice(), &mut host)
        .map_err(|_| anyhow!("the run is refused"))?;
    show_report(&rt, report)?;
    show_machine(&rt, &machine)
}
