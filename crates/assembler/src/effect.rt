//! What a statement adds to an executable.

ghost use Rattle.std.specs.Prelude.{◌≡◌};
ghost use Rattle.std.specs.Option.{option_map};
ghost use Rattle.assembler.specs.Characters.{characters};
ghost use Rattle.assembler.specs.Questions.{code_words as code_of, data_words, is_end, stack_in, string_words};
ghost use Rattle.assembler.specs.Statements.{meant};

use crate::characters::count_characters;
use crate::statement::Statement;

/// How many code words a statement has.
pub(crate) fn code_words(statement: Option<Statement>) -> u32
    ensures { result ≡ code_of (option_map meant statement.entry) }
{
    match statement {
        Some(Statement::Code(_) | Statement::Labelled { .. }) => 1,
        _ => 0,
    }
}

/// How many constant words a string has.
fn string_words(part: &[u8]) -> usize
    ensures { result ≡ string_words (characters part.now) }
{
    count_characters(part).map_or(0, |count| count + 1)
}

/// How many constant words a statement has.
pub(crate) fn data_words(statement: Option<Statement>) -> usize
    ensures { result ≡ data_words (option_map meant statement.entry) }
{
    match statement {
        Some(Statement::Constant(_)) => 1,
        Some(Statement::Text(part)) => string_words(part),
        _ => 0,
    }
}

/// Whether it is an `end`.
pub(crate) fn is_end(statement: Option<Statement>) -> bool
    ensures { result ≡ is_end (option_map meant statement.entry) }
{
    matches!(statement, Some(Statement::End(_) | Statement::EndAt(_)))
}

/// The stack pointer that a statement sets, if it sets one.
pub(crate) fn stack_in(statement: Option<Statement>) -> Option<u32>
    ensures { result ≡ stack_in (option_map meant statement.entry) }
{
    match statement {
        Some(Statement::Stack(address)) => Some(address),
        _ => None,
    }
}
