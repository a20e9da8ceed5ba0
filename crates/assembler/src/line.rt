//! A line in its parts, and what it says.

ghost use Rattle.std.specs.Prelude.{◌≡◌, ◌+◌, Some, None, IfSome, IfNone};
ghost use Rattle.std.specs.Option.{option_map};
ghost use Rattle.lexer.specs.Cursor.{words_in};
ghost use Rattle.lexer.specs.Shown.{shown};
ghost use Rattle.lexer.specs.Text.{blanks, code_words};
ghost use Rattle.assembler.specs.Lines.{parts_by, parts_of, statement_in};
ghost use Rattle.assembler.specs.Reading.{operands_in};
ghost use Rattle.assembler.specs.Statements.{meant};

use crate::mnemonic::Mnemonic;
use crate::read::read_statement;
use crate::statement::Statement;
use lexer::lines::Line;
use lexer::word::{Token, Word};
use lexer::words::Words;

/// The place and the name of the label that the words of a line begin with, else the first word: it is taken.
pub(crate) fn take_first<'a>(
    words: &mut Words<'a>,
) -> (Option<(usize, &'a [u8])>, Option<Token<'a>>)
    ensures labelled { IfSome result.0 (λ l. parts_by (Some l.1.now) (words_in words.new) ≡ parts_of (words_in words.old)) }
    ensures plain { IfNone result.0 (record { label = None; next = option_map (λ t. shown t.word) result.1; operands = operands_in words.new } ≡ parts_of (words_in words.old)) }
    ensures place { IfSome result.0 (λ l. l.0 ≡ words.old.place + blanks words.old.rest.now) }
{
    let first = words.first_word();
    let Some(token) = first else {
        return (None, None);
    };
    let Word::Label(name) = token.word else {
        return (None, first);
    };
    (Some((token.place, name)), None)
}

/// The word past the label of a line, if there is one: it is taken, and the label with it.
fn take_next<'a>(words: &mut Words<'a>) -> Option<Token<'a>>
    ensures next { option_map (λ t. shown t.word) result ≡ (parts_of (words_in words.old)).next }
    ensures operands { operands_in words.new ≡ (parts_of (words_in words.old)).operands }
{
    match take_first(words) {
        (None, first) => first,
        (Some(_), _) => words.next_word(),
    }
}

/// The statement of a line, past its label.
pub(crate) fn statement_of<'a>(line: Line<'a>) -> Option<Statement<'a>>
    ensures { option_map meant result ≡ statement_in (parts_of (code_words line.entry.code.now)) }
{
    let mut words = line.words();
    let mnemonic = Mnemonic::of_word(take_next(&mut words)?.word)?;
    read_statement(mnemonic, &mut words).ok()
}
