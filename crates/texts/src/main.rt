//! Runs the table of assembler cases on standard input. Each line is a case:
//!
//! ```text
//! NAME LABELS ROOM TOKEN..
//! ```
//!
//! The tokens give the text, LABELS the maximum of the label list and ROOM the length of the output that is lent. For
//! each case it prints how it ended and what it left:
//!
//! - `NAME: ok LENGTH CHECKSUM back yes`, or `back no` where the executable's listing does not assemble to it again, or
//!   `NAME: refused NUMBER line LINE`;
//! - how many labels the list has;
//! - whether the rest (the output past the executable, or all of it after a refusal, and the entries past the last
//!   label) is `untouched` or `written`;
//! - a line for each label, or a checksum of them where they are more than 16.

#![tactic(auto)]

mod bytes;
mod marks;

use anyhow::Context;
use assembler::assemble::assemble;
use assembler::label::Label;
use assembler::question::Refusal;
use bounded::list::BoundedList;
use bytes::push_token;
use cases::filled::is_filled;
use cases::sum::checksum;
use cases::words::next_word;
use marks::{filler, sum_labels};
use roundtrip::rebuild::rebuild;
use std::io::{BufRead, BufReader};

/// The case of a line: its name, the label list's maximum, the output's length, and the text.
#[derive(Drop)]
struct Case {
    name: String,
    labels: usize,
    room: usize,
    text: Vec<u8>,
}

fn read_case(rt: &HostRuntime, line: &str) -> anyhow::Result<Case> {
    let heap = rt.alloc();
    let mut words = line.split_whitespace();
    let name = next_word(&mut words, "name")?.to_string(heap)?;
    let labels = next_word(&mut words, "labels")?.parse::<usize>()?;
    let room = next_word(&mut words, "room")?.parse::<usize>()?;
    let mut text = Vec::new(heap);
    for token in words {
        push_token(&mut text, token)?;
    }
    Ok(Case {
        name,
        labels,
        room,
        text,
    })
}

/// Assembles a text into lent entries and a lent output. It answers how many labels there are, too.
fn assemble_into(
    text: &[u8],
    entries: &mut [Label],
    out: &mut [u8],
) -> (usize, Result<usize, Refusal>) {
    let mut labels = BoundedList::new(entries);
    let answer = assemble(text, &mut labels, out);
    (labels.len(), answer)
}

/// Assembles a case into an output of sevens, and prints what came.
fn run_case(rt: &HostRuntime, case: &Case) -> anyhow::Result<()> {
    let mut out = vec![in rt.alloc(); 7u8; case.room]?;
    let mut entries = vec![in rt.alloc(); filler(); case.labels]?;
    let (count, answer) = assemble_into(case.text.as_slice(), &mut entries, &mut out);
    let (executable, past) = out
        .as_slice()
        .split_at_checked(answer.unwrap_or(0))
        .context("the length is past the output")?;
    print_answer(rt, case.name.as_str(), answer, executable)?;
    let (labels, free) = entries
        .as_slice()
        .split_at_checked(count)
        .context("the labels are past the list")?;
    let rest = if is_filled(past, &7) && is_filled(free, &filler()) {
        "untouched"
    } else {
        "written"
    };
    println!(rt; " labels {count} rest {rest}")?;
    print_labels(rt, labels)
}

/// Prints how a case ended, with what was written of its executable.
fn print_answer(
    rt: &HostRuntime,
    name: &str,
    answer: Result<usize, Refusal>,
    executable: &[u8],
) -> anyhow::Result<()> {
    match answer {
        Err(refusal) => {
            let number = refusal.question.number();
            let line = refusal.origin.line;
            print!(rt; "{name}: refused {number} line {line}")
        }
        Ok(length) => {
            let sum = checksum(executable);
            let back = if lists_back(rt, executable)? {
                "yes"
            } else {
                "no"
            };
            print!(rt; "{name}: ok {length} {sum} back {back}")
        }
    }?;
    Ok(())
}

/// Whether the listing of an executable assembles to it again.
fn lists_back(rt: &HostRuntime, executable: &[u8]) -> anyhow::Result<bool> {
    let mut text = vec![in rt.alloc(); 0u8; executable.len().saturating_mul(8)]?;
    let mut out = vec![in rt.alloc(); 0u8; executable.len()]?;
    match rebuild(executable, &mut text, &mut out) {
        Ok(length) => Ok(length == executable.len() && out.as_slice() == executable),
        Err(_) => Ok(false),
    }
}

/// Prints labels, or the checksum of many.
fn print_labels(rt: &HostRuntime, labels: &[Label]) -> anyhow::Result<()> {
    if labels.len() > 16 {
        let sum = sum_labels(labels);
        println!(rt; "  sum {sum}")?;
        return Ok(());
    }
    for label in labels {
        let (place, length, address) = (label.place.offset, label.length, label.address);
        println!(rt; "  place {place} length {length} address {address}")?;
    }
    Ok(())
}

fn main(rt: HostRuntime) -> anyhow::Result<()> {
    for line in BufReader::new(rt.alloc(), rt.stdin())?.lines(rt.alloc()) {
        let text = line?;
        let case = read_case(&rt, text.as_str())?;
        run_case(&rt, &case)?;
    }
    Ok(())
}
