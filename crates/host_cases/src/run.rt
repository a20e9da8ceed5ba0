//! Running a case.

use crate::call::{make_call, show_item};
use crate::case::{CaseHost, Lent, read_case};
use crate::units::CaseUnit;
use anyhow::Context;
use cases::filled::is_filled;
use counting::Counting;
use host::lent_host::LentHost;
use host::record::Record;
use host::room::ask_room;

/// Runs the case of a line.
pub(crate) fn run_line(rt: &HostRuntime, line: &str) -> anyhow::Result<()> {
    let case = read_case(rt, line)?;
    let name = case.name.as_str();
    println!(rt; "{name}:")?;
    let calls = case.calls.as_slice();
    match &case.host {
        CaseHost::Tape(lent) => run_lent::<u8>(rt, lent, calls),
        CaseHost::Sheet(lent) => run_lent::<Record>(rt, lent, calls),
        CaseHost::Counting(next, end) => run_counting(rt, *next, *end, calls),
    }
}

/// Runs a case over a host over lent units.
fn run_lent<U: CaseUnit>(rt: &HostRuntime, lent: &Lent, calls: &[String]) -> anyhow::Result<()> {
    let input = U::read_all(rt, lent.input.as_str())?;
    let mut output = vec![in rt.alloc(); U::FILLER; lent.room]?;
    if let Err(refusal) = ask_room(output.as_slice(), lent.writes) {
        let number = refusal.number();
        println!(rt; "  refused {number}")?;
    }
    let mut host = LentHost::new(input.as_slice(), output.as_mut_slice(), lent.writes);
    for word in calls {
        make_call(rt, &mut host, word.parse()?)?;
    }
    U::show_all(rt, host.written())?;
    let length = host.written_len();
    let rest = output
        .as_slice()
        .get(length..)
        .context("too much was written")?;
    let state = if is_filled(rest, &U::FILLER) {
        "untouched"
    } else {
        "changed"
    };
    println!(rt; "  rest {state}")?;
    Ok(())
}

/// Runs a case over a counting host.
fn run_counting(rt: &HostRuntime, next: u32, end: u32, calls: &[String]) -> anyhow::Result<()> {
    let mut host = Counting::new(next, end);
    for word in calls {
        make_call(rt, &mut host, word.parse()?)?;
    }
    println!(rt; "  written")?;
    for item in host.written() {
        show_item(rt, *item)?;
    }
    Ok(())
}
