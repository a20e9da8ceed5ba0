//! Running the program, under one permit, under two, and in parts.

use crate::readings::READINGS;
use crate::units::ShownUnit;
use anyhow::{Context, anyhow};
use host::lent_host::LentHost;
use host::record::Record;
use host::transcript::write_items;
use permit::permit::Permit;
use runs::comparison::{Comparison, Outcome, Pairing};
use runs::loaded::Machine;
use runs::loaded::both::compare;
use runs::report::{Ending, Report};
use runs::request::{Call, Memory, Part, PermittedRequest, Request};
use runs::settings::Settings;

/// Prints how a run ended.
fn show_report(rt: &HostRuntime, report: Report) -> anyhow::Result<()> {
    let steps = report.steps;
    match report.ending {
        Ending::Spent => println!(rt; "  {steps} steps, spent")?,
        Ending::Halted => println!(rt; "  {steps} steps, halted")?,
        Ending::Exited(code) => println!(rt; "  {steps} steps, exited {code}")?,
        Ending::Fault(fault) => {
            let number = fault.cause.number();
            let address = fault.address;
            println!(rt; "  {steps} steps, fault {number} at {address}")?;
        }
    }
    Ok(())
}

/// The readings in units.
pub(crate) fn readings<U: ShownUnit>(rt: &HostRuntime) -> anyhow::Result<Vec<U>> {
    let mut units = vec![in rt.alloc(); U::BLANK; 64]?;
    let length = write_items(&READINGS, units.as_mut_slice()).map_err(|_| anyhow!(
        "no room for the readings"
    ))?;
    units.truncate(length);
    Ok(units)
}

/// Loads the program and runs it to its halt, and then to its exit.
pub(crate) fn run_once<U: ShownUnit>(
    rt: &HostRuntime,
    name: &str,
    executable: &[u8],
    permit: &Permit,
) -> anyhow::Result<()> {
    println!(rt; "{name}:")?;
    let input = readings::<U>(rt)?;
    let mut output = vec![in rt.alloc(); U::BLANK; 64]?;
    let mut cells = vec![in rt.alloc(); 7u32; 1_024]?;
    let mut host = LentHost::new(input.as_slice(), output.as_mut_slice(), 4);
    let mut machine = Machine::load(executable, cells.as_mut_slice()).map_err(|_| anyhow!(
        "the executable is refused"
    ))?;
    let settings = Settings {
        permit,
        budget: 1_000,
    };
    for _ in 0..2 {
        let report = machine
            .run(&settings, cells.as_mut_slice(), &mut host)
            .map_err(|_| anyhow!("a run is refused"))?;
        show_report(rt, report)?;
    }
    U::show(rt, host.written())
}

/// Prints what came of comparing two machines.
fn show_comparison(rt: &HostRuntime, comparison: &Comparison) -> anyhow::Result<()> {
    let agreed = comparison.agreed;
    println!(rt; "  answered alike {agreed}")?;
    match comparison.outcome {
        Outcome::Same => println!(rt; "  the same throughout")?,
        Outcome::PermitFault { at, steps } => {
            println!(rt;
                "  the first meets a permit fault at request {at} after {steps} steps; the second holds the same there"
            )?
        }
        Outcome::Different { at } => println!(rt; "  different at request {at}")?,
    }
    Ok(())
}

/// Compares the tight permit over a tape with the wide one over a sheet, and then with the counter's register closed.
pub(crate) fn compare_permits(
    rt: &HostRuntime,
    executable: &[u8],
    tight: &Permit,
    wide: &Permit,
) -> anyhow::Result<()> {
    let mut closed = *tight;
    closed
        .set_register(3, 1)
        .map_err(|_| anyhow!("no such register"))?;
    println!(rt; "tight permit over a tape, wide permit over a sheet:")?;
    compare_two(rt, executable, tight, wide)?;
    println!(rt; "the counter closed over a tape, wide permit over a sheet:")?;
    compare_two(rt, executable, &closed, wide)
}

/// A part of the other memory.
const OTHER: Memory = Memory::Other(Part {
    start: 5,
    len: 1_025,
});

/// Compares two permits over a list of runs, looks, and calls with another memory.
fn compare_two(
    rt: &HostRuntime,
    executable: &[u8],
    first: &Permit,
    second: &Permit,
) -> anyhow::Result<()> {
    let mut pairings = Vec::new(rt.alloc());
    for call in [
        Call::Run(9),
        Call::Register(4),
        Call::Cell(0),
        Call::Run(1_000),
    ] {
        for memory in [Memory::Own, OTHER] {
            pairings.push(Pairing {
                request: Request { call, memory },
                first: *first,
                second: *second,
            })?;
        }
    }
    compare_lists(rt, executable, pairings.as_slice())
}

/// Compares a machine over a tape with one over a sheet.
pub(crate) fn compare_lists(
    rt: &HostRuntime,
    executable: &[u8],
    pairings: &[Pairing],
) -> anyhow::Result<()> {
    let (tape, sheet) = (readings::<u8>(rt)?, readings::<Record>(rt)?);
    let mut bytes = vec![in rt.alloc(); 0u8; 64]?;
    let mut records = vec![in rt.alloc(); Record::BLANK; 64]?;
    let mut first_cells = vec![in rt.alloc(); 1u32; 1_024]?;
    let mut second_cells = vec![in rt.alloc(); 2u32; 1_024]?;
    let mut other = vec![in rt.alloc(); 3u32; 2_048]?;
    let mut first_host = LentHost::new(tape.as_slice(), bytes.as_mut_slice(), 4);
    let mut second_host = LentHost::new(sheet.as_slice(), records.as_mut_slice(), 4);
    let comparison = compare(
        executable,
        first_cells.as_mut_slice(),
        &mut first_host,
        second_cells.as_mut_slice(),
        &mut second_host,
        other.as_mut_slice(),
        pairings,
    )
    .map_err(|_| anyhow!("the executable is refused"))?;
    show_comparison(rt, &comparison)?;
    let same = first_cells.as_slice() == second_cells.as_slice();
    println!(rt; "  the same cells {same}")?;
    let kept = other.iter().all(|cell| *cell == 3);
    println!(rt; "  the other memory as it was {kept}")?;
    Ok(())
}

/// Runs the program in parts of seven steps with looks and refused calls between, and tells what they come to.
pub(crate) fn run_in_parts(
    rt: &HostRuntime,
    executable: &[u8],
    permit: &Permit,
) -> anyhow::Result<()> {
    println!(rt; "in parts of seven steps:")?;
    let input = readings::<u8>(rt)?;
    let mut output = vec![in rt.alloc(); 0u8; 64]?;
    let mut cells = vec![in rt.alloc(); 7u32; 1_024]?;
    let mut host = LentHost::new(input.as_slice(), output.as_mut_slice(), 4);
    let mut machine = Machine::load(executable, cells.as_mut_slice()).map_err(|_| anyhow!(
        "the executable is refused"
    ))?;
    let mut other = vec![in rt.alloc(); 3u32; 2_048]?;
    let requests = requests_in_parts(rt, permit)?;
    let total = machine
        .run_in_parts(
            requests.as_slice(),
            cells.as_mut_slice(),
            &mut host,
            other.as_mut_slice(),
        )
        .context("no run was taken")?;
    let steps = u32::try_from(total.steps).ok().context("too many steps")?;
    let ending = total.ending;
    show_report(rt, Report { steps, ending })
}

/// Runs of seven steps under a permit, each with a run of another memory, a run of too large a budget and two looks after it,
/// under a permit of their own.
fn requests_in_parts(rt: &HostRuntime, permit: &Permit) -> anyhow::Result<Vec<PermittedRequest>> {
    let (own, wide) = (Memory::Own, Permit::new());
    let mut requests = Vec::new(rt.alloc());
    for _ in 0..20 {
        for (call, memory, permit) in [
            (Call::Run(7), own, *permit),
            (Call::Run(7), OTHER, wide),
            (Call::Run(100_000_001), own, wide),
            (Call::Flags, own, wide),
            (Call::Cell(5_000), own, wide),
        ] {
            let request = Request { call, memory };
            requests.push(PermittedRequest { request, permit })?;
        }
    }
    Ok(requests)
}
