//! Runs the table of test cases on standard input. Each line is a case:
//!
//! ```text
//! NAME ROOM SHOW TOKEN..
//! ```
//!
//! The tokens give the bytes of an executable, and ROOM the length of the output that is lent. SHOW says whether the
//! listing is printed (`text`) or only its length and checksum (`sum`), or what the listing program prints for the
//! bytes (`printout`; ROOM is not used then).

#![tactic(auto)]

mod bytes;
mod show;

use bytes::push_token;
use cases::sum::checksum;
use cases::words::next_word;
use listing::list::list;
use listing::printout::printout;
use show::Show;
use std::io::{BufRead, BufReader, Write};

/// The case of a line: its name, the output's length, how it is shown, and the bytes.
#[derive(Drop)]
struct Case {
    name: String,
    room: usize,
    show: Show,
    bytes: Vec<u8>,
}

fn read_case(rt: &HostRuntime, line: &str) -> anyhow::Result<Case> {
    let heap = rt.alloc();
    let mut words = line.split_whitespace();
    let name = next_word(&mut words, "name")?.to_string(heap)?;
    let room = next_word(&mut words, "room")?.parse::<usize>()?;
    let show = Show::from(next_word(&mut words, "show")?);
    let mut bytes = Vec::new(heap);
    for token in words {
        push_token(&mut bytes, token)?;
    }
    Ok(Case {
        name,
        room,
        show,
        bytes,
    })
}

/// Lists a case into an output of sevens, and prints what came.
fn run_case(rt: &HostRuntime, case: &Case) -> anyhow::Result<()> {
    let mut out = vec![in rt.alloc(); 7u8; case.room]?;
    let name = case.name.as_str();
    match list(case.bytes.as_slice(), &mut out) {
        Err(refusal) => {
            let number = refusal.number();
            let left = checksum(out.as_slice());
            println!(rt; "{name}: refused {number} output {left}")?;
        }
        Ok(length) => {
            let whole = checksum(out.as_slice());
            println!(rt; "{name}: length {length} output {whole}")?;
            if case.show == Show::Text && length <= out.len() {
                rt.stdout().write_all(&out.as_slice()[0..length])?;
            }
        }
    }
    Ok(())
}

/// Prints what the listing program prints for a case.
fn run_printout(rt: &HostRuntime, case: &Case) -> anyhow::Result<()> {
    let name = case.name.as_str();
    let printed = printout(rt.alloc(), case.bytes.as_slice())?;
    let text = printed.text();
    let length = text.len();
    let status = u8::from(printed.is_refused());
    println!(rt; "{name}: prints {length} status {status}")?;
    rt.stdout().write_all(text)?;
    Ok(())
}

fn main(rt: HostRuntime) -> anyhow::Result<()> {
    for line in BufReader::new(rt.alloc(), rt.stdin())?.lines(rt.alloc()) {
        let text = line?;
        let case = read_case(&rt, text.as_str())?;
        match case.show {
            Show::Printout => run_printout(&rt, &case)?,
            Show::Text | Show::Sum => run_case(&rt, &case)?,
        }
    }
    Ok(())
}
