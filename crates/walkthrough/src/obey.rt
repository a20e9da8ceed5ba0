//! What the tool replies to a command.

use crate::shelf::Shelf;
use crate::{records, running, texts};
use command_line::command::Command;
use reply::reply::Reply;
use text_replies::helping::help;

/// The reply to a command over the files of a shelf.
pub(crate) fn obey(
    rt: &HostRuntime,
    shelf: &mut Shelf,
    command: Command<'_>,
) -> anyhow::Result<Reply> {
    match command {
        Command::Help { about } => Ok(help(rt.alloc(), about)?),
        Command::Assemble { source, executable } => texts::assemble(rt, shelf, source, executable),
        Command::List { executable } => texts::list(rt, shelf, executable),
        Command::Check {
            executable,
            listing,
        } => texts::check(rt, shelf, executable, listing),
        Command::Same { first, second } => texts::compare(rt, shelf, first, second),
        Command::Run {
            executable,
            options,
        } => running::run(rt, shelf, executable, &options),
        Command::Compare {
            executable,
            first,
            second,
            options,
        } => running::compare(rt, shelf, executable, first, second, &options),
        Command::ShowTape { tape } => texts::show_tape(rt, shelf, tape),
        Command::MakeTape { text, tape } => texts::make_tape(rt, shelf, text, tape),
        Command::File {
            record,
            source,
            readings,
            permit,
        } => records::file(rt, shelf, record, source, readings, permit),
        Command::Replay { record } => records::replay(rt, shelf, record),
    }
}
