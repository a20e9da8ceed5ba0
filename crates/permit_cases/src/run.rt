//! Running a case.

use crate::change::Change;
use crate::show::show_permit;
use anyhow::Context;
use permit::permit::Permit;
use std::str::SplitWhitespace;

/// Runs the case of a line.
pub(crate) fn run_line(rt: &HostRuntime, line: &str) -> anyhow::Result<()> {
    let (changes, further) = line
        .split_once(" then")
        .context("a case has no second permit")?;
    let mut words = changes.split_whitespace();
    let name = words.next().context("a line is empty")?;
    println!(rt; "{name}:")?;
    let mut first = Permit::new();
    make_changes(rt, &mut first, words)?;
    println!(rt; "  then")?;
    let mut second = first;
    make_changes(rt, &mut second, further.split_whitespace())?;
    show_order(rt, &first, &second)
}

/// Makes changes of a permit, and prints what each answered and what the permit says after it.
fn make_changes(
    rt: &HostRuntime,
    permit: &mut Permit,
    words: SplitWhitespace<'_>,
) -> anyhow::Result<()> {
    for word in words {
        let change: Change = word.parse()?;
        match change.make(permit) {
            Ok(()) => print!(rt; "  taken")?,
            Err(refusal) => {
                let number = refusal.number();
                print!(rt; "  refused {number}")?;
            }
        }
        show_permit(rt, permit)?;
    }
    Ok(())
}

/// Prints whether each of two permits is at least as open as the other.
fn show_order(rt: &HostRuntime, first: &Permit, second: &Permit) -> anyhow::Result<()> {
    let first_is = answer(first.is_as_open_as(second));
    let second_is = answer(second.is_as_open_as(first));
    println!(rt; "  first {first_is}, second {second_is}")?;
    Ok(())
}

/// The word for an answer.
fn answer(yes: bool) -> &'static str {
    if yes { "yes" } else { "no" }
}
