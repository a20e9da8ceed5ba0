//! Command lines, and what they give.

use crate::command::{Command, read_command};
use crate::misuse::misuse_text;
use crate::options::Options;
use std::test::Fail;

const NO_OPTIONS: Options<'static> = Options {
    readings: None,
    results: None,
    permit: None,
    budget: None,
    cells: None,
    writes: None,
    trace: None,
    dump: false,
    quiet: false,
};

/// A command line with its command, or the sentence that it gets.
struct Line(&'static str, Result<Command<'static>, &'static str>);

const LINES: [Line; 18] = [
    Line("", Err("karma: no command; karma help lists the commands")),
    Line(
        "lst a",
        Err("karma: no command 'lst'; karma help lists the commands"),
    ),
    Line("list a", Ok(Command::List { executable: "a" })),
    Line(
        "list a b",
        Err("karma: these are not the operands of list; karma help list tells them"),
    ),
    Line("tape show t", Ok(Command::ShowTape { tape: "t" })),
    Line(
        "tape make x t",
        Ok(Command::MakeTape {
            text: "x",
            tape: "t",
        }),
    ),
    Line(
        "tape print t",
        Err("karma: these are not the operands of tape; karma help tape tells them"),
    ),
    Line("help", Ok(Command::Help { about: None })),
    Line(
        "help tape",
        Ok(Command::Help {
            about: Some("tape"),
        }),
    ),
    Line(
        "run",
        Err("karma: these are not the operands of run; karma help run tells them"),
    ),
    Line(
        "run a --trace 0x10 --dump --results r --budget 5000000000 --cells 02000 --writes 7 --permit --quiet --readings t",
        Ok(Command::Run {
            executable: "a",
            options: Options {
                readings: Some("t"),
                results: Some("r"),
                permit: Some("--quiet"),
                budget: Some(4_294_967_296),
                cells: Some(1024),
                writes: Some(7),
                trace: Some(16),
                dump: true,
                quiet: false,
            },
        }),
    ),
    Line(
        "run a --first p",
        Err("karma: run has no option '--first'; karma help run lists its options"),
    ),
    Line(
        "run a --quiet --budget",
        Err("karma: --budget needs a value; write it as the next word"),
    ),
    Line(
        "run a --cells -1",
        Err(
            "karma: --cells needs a number and not '-1'; write one without a sign, as 1000 or 0x3e8",
        ),
    ),
    Line(
        "run a --dump --quiet --dump",
        Err("karma: --dump stands twice; write it once"),
    ),
    Line(
        "compare a --second q",
        Err("karma: compare needs --first PERMIT"),
    ),
    Line(
        "compare a --first p",
        Err("karma: compare needs --second PERMIT"),
    ),
    Line(
        "compare a --quiet --second q --first p",
        Ok(Command::Compare {
            executable: "a",
            first: "p",
            second: "q",
            options: Options {
                quiet: true,
                ..NO_OPTIONS
            },
        }),
    ),
];

#[test]
fn lines(rt: HostRuntime) -> Result<(), Fail> {
    let heap = rt.alloc();
    for Line(line, expected) in &LINES {
        let words: Vec<&str> = line.split_whitespace().collect(heap)?;
        match read_command(&words) {
            Ok(command) => assert!(rt; *expected == Ok(command), "{line}"),
            Err(misuse) => {
                let sentence = misuse_text(heap, misuse)?;
                assert!(rt; *expected == Err(sentence.as_str()), "{line}");
            }
        }
    }
    Ok(())
}
