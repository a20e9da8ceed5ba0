//! Commands: what the words after the program's name ask for.

ghost use Rattle.std.specs.Prelude.{◌≡◌};
ghost use Rattle.command_line.specs.Commands.{plain_command, run_in, comparison_in, operands_in, command_in};

use crate::misuse::Misuse;
use crate::options::Options;
use crate::reading::read_options;
use crate::topic::{Topic, topic_of};

/// A command with the words that it is given.
#[derive(Clone, Copy, PartialEq, Eq)]
pub enum Command<'a> {
    /// `assemble SOURCE EXECUTABLE`: make an executable of a source.
    Assemble {
        source: &'a str,
        executable: &'a str,
    },
    /// `list EXECUTABLE`: print its listing.
    List {
        executable: &'a str,
    },
    /// `check EXECUTABLE LISTING`: is that its listing?
    Check {
        executable: &'a str,
        listing: &'a str,
    },
    /// `same FIRST SECOND`: are the two executables the same?
    Same {
        first: &'a str,
        second: &'a str,
    },
    /// `run EXECUTABLE` and options: run it.
    Run {
        executable: &'a str,
        options: Options<'a>,
    },
    /// `compare EXECUTABLE --first PERMIT --second PERMIT` and options: run it under two permits.
    Compare {
        executable: &'a str,
        first: &'a str,
        second: &'a str,
        options: Options<'a>,
    },
    /// `tape show TAPE`: print the items on a tape.
    ShowTape {
        tape: &'a str,
    },
    /// `tape make TEXT TAPE`: make a tape of lines.
    MakeTape {
        text: &'a str,
        tape: &'a str,
    },
    /// `file RECORD SOURCE READINGS PERMIT`: keep a run in a folder.
    File {
        record: &'a str,
        source: &'a str,
        readings: &'a str,
        permit: &'a str,
    },
    /// `replay RECORD`: make such a run again.
    Replay {
        record: &'a str,
    },
    /// `help`, or `help COMMAND` with any word: tell of the commands, or of one.
    Help {
        about: Option<&'a str>,
    },
}

/// The command of a topic that takes these operands and no options, if there is one.
fn plain_command<'a>(topic: Topic, operands: &[&'a str]) -> Option<Command<'a>>
    ensures { result ≡ plain_command topic operands.now }
{
    match (topic, operands) {
        (Topic::Assemble, &[source, executable]) => Some(Command::Assemble { source, executable }),
        (Topic::List, &[executable]) => Some(Command::List { executable }),
        (Topic::Check, &[executable, listing]) => Some(Command::Check {
            executable,
            listing,
        }),
        (Topic::Same, &[first, second]) => Some(Command::Same { first, second }),
        (Topic::Tape, &["show", tape]) => Some(Command::ShowTape { tape }),
        (Topic::Tape, &["make", text, tape]) => Some(Command::MakeTape { text, tape }),
        (Topic::File, &[record, source, readings, permit]) => Some(Command::File {
            record,
            source,
            readings,
            permit,
        }),
        (Topic::Replay, &[record]) => Some(Command::Replay { record }),
        (Topic::Help, &[]) => Some(Command::Help { about: None }),
        (Topic::Help, &[word]) => Some(Command::Help { about: Some(word) }),
        _ => None,
    }
}

/// A run with the options that these words give.
fn read_run<'a>(executable: &'a str, words: &[&'a str]) -> Result<Command<'a>, Misuse<'a>>
    ensures { result ≡ run_in executable.entry words.now }
{
    let given = read_options(Topic::Run, words)?;
    Ok(Command::Run {
        executable,
        options: given.options,
    })
}

/// A comparison of the runs under the two permits that these words name.
fn read_comparison<'a>(executable: &'a str, words: &[&'a str]) -> Result<Command<'a>, Misuse<'a>>
    ensures { result ≡ comparison_in executable.entry words.now }
{
    let given = read_options(Topic::Compare, words)?;
    let first = given.first.ok_or(Misuse::NoFirst)?;
    let second = given.second.ok_or(Misuse::NoSecond)?;
    Ok(Command::Compare {
        executable,
        first,
        second,
        options: given.options,
    })
}

/// The command about a topic that the words after it give.
fn read_operands<'a>(topic: Topic, words: &[&'a str]) -> Result<Command<'a>, Misuse<'a>>
    ensures { result ≡ operands_in topic words.now }
{
    match (topic, words) {
        (Topic::Run, &[executable, ref rest @ ..]) => read_run(executable, rest),
        (Topic::Compare, &[executable, ref rest @ ..]) => read_comparison(executable, rest),
        _ => plain_command(topic, words).ok_or(Misuse::OtherOperands { command: topic }),
    }
}

/// The command that words give, or why they give none.
pub fn read_command<'a>(words: &[&'a str]) -> Result<Command<'a>, Misuse<'a>>
    ensures { result ≡ command_in words.now }
{
    let (name, operands) = words.split_first().ok_or(Misuse::NoCommand)?;
    let topic = topic_of(name).ok_or(Misuse::UnknownCommand { word: name })?;
    read_operands(topic, operands)
}
