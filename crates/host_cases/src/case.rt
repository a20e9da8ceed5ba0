//! The cases of the table.

use anyhow::Context;
use cases::words::next_word;
use std::str::SplitWhitespace;

/// What a host over lent units is made over.
#[derive(Drop)]
pub(crate) struct Lent {
    pub(crate) writes: usize,
    pub(crate) room: usize,
    pub(crate) input: String,
}

/// The host of a case: a tape, a sheet, or a counting host with its first number and its end.
#[derive(Drop)]
pub(crate) enum CaseHost {
    Tape(Lent),
    Sheet(Lent),
    Counting(u32, u32),
}

/// The case of a line. Its calls are words, each read where it is made.
#[derive(Drop)]
pub(crate) struct Case {
    pub(crate) name: String,
    pub(crate) host: CaseHost,
    pub(crate) calls: Vec<String>,
}

/// Reads what a host over lent units is made over.
fn read_lent(rt: &HostRuntime, words: &mut SplitWhitespace<'_>) -> anyhow::Result<Lent> {
    let writes = next_word(words, "writes")?.parse()?;
    let room = next_word(words, "room")?.parse()?;
    let input = next_word(words, "input")?.to_string(rt.alloc())?;
    Ok(Lent {
        writes,
        room,
        input,
    })
}

/// Reads the host of a case: a tape, a counting host, or by any other word a sheet.
fn read_host(rt: &HostRuntime, words: &mut SplitWhitespace<'_>) -> anyhow::Result<CaseHost> {
    match next_word(words, "host")? {
        "tape" => Ok(CaseHost::Tape(read_lent(rt, words)?)),
        "counting" => {
            let next = next_word(words, "first number")?.parse()?;
            let end = next_word(words, "end")?.parse()?;
            Ok(CaseHost::Counting(next, end))
        }
        _ => Ok(CaseHost::Sheet(read_lent(rt, words)?)),
    }
}

/// Reads the case of a line.
pub(crate) fn read_case(rt: &HostRuntime, line: &str) -> anyhow::Result<Case> {
    let heap = rt.alloc();
    let mut words = line.split_whitespace();
    let name = words.next().context("a line is empty")?.to_string(heap)?;
    let host = read_host(rt, &mut words)?;
    let mut calls = Vec::new(heap);
    for word in words {
        calls.push(word.to_string(heap)?)?;
    }
    Ok(Case { name, host, calls })
}
