//! Why words give no command.

ghost use Rattle.std.specs.Prelude.{◌≡◌, IfOk, string_bytes};
ghost use Rattle.command_line.specs.Texts.{misuse_text};

use crate::topic::Topic;
use std::alloc::{AllocError, Global};

/// Why words give no command.
#[derive(Clone, Copy)]
pub enum Misuse<'a> {
    /// There is no word.
    NoCommand,
    /// The first word names no command.
    UnknownCommand { word: &'a str },
    /// The command does not take these operands.
    OtherOperands { command: Topic },
    /// The command has no such option, where an option is to stand.
    UnknownOption { command: Topic, word: &'a str },
    /// No word is left for the value of an option.
    NoValue { option: &'a str },
    /// The value of an option is no numeral.
    NoNumber { option: &'a str, word: &'a str },
    /// An option stands a second time.
    Twice { option: &'a str },
    /// A comparison without `--first`.
    NoFirst,
    /// A comparison without `--second`.
    NoSecond,
}

/// The sentence that tells a misuse and what to do about it, without a line end.
pub fn misuse_text(heap: Global, misuse: Misuse<'_>) -> Result<String, AllocError>
    ensures { IfOk result (λ s. string_bytes s ≡ misuse_text misuse.entry) }
{
    match misuse {
        Misuse::NoCommand => format!(in heap; "karma: no command; karma help lists the commands"),
        Misuse::UnknownCommand { word } => {
            format!(in heap; "karma: no command '{word}'; karma help lists the commands")
        }
        Misuse::OtherOperands { command } => {
            let name = command.word();
            format!(in heap;
                "karma: these are not the operands of {name}; karma help {name} tells them"
            )
        }
        Misuse::UnknownOption { command, word } => {
            let name = command.word();
            format!(in heap;
                "karma: {name} has no option '{word}'; karma help {name} lists its options"
            )
        }
        Misuse::NoValue { option } => {
            format!(in heap; "karma: {option} needs a value; write it as the next word")
        }
        Misuse::NoNumber { option, word } => {
            format!(in heap;
                "karma: {option} needs a number and not '{word}'; write one without a sign, as 1000 or 0x3e8"
            )
        }
        Misuse::Twice { option } => {
            format!(in heap; "karma: {option} stands twice; write it once")
        }
        Misuse::NoFirst => format!(in heap; "karma: compare needs --first PERMIT"),
        Misuse::NoSecond => format!(in heap; "karma: compare needs --second PERMIT"),
    }
}
