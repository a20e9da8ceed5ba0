//! The second pass: the labels that are used, the first instruction, and the words.

ghost use Rattle.std.specs.Prelude.{◌≡◌, ◌≤◌, ◌*◌, true, is_some};
ghost use Rattle.std.specs.List.{flat_map};
ghost use Rattle.std.specs.Option.{option_map};
ghost use Rattle.lexer.specs.Text.{lines_of};
ghost use Rattle.output.specs.Writes.{Put};
ghost use Rattle.assembler.specs.Labels.{name_in};
ghost use Rattle.assembler.specs.Addresses.{LowLabels, Clear};
ghost use Rattle.assembler.specs.Characters.{characters, until_quote};
ghost use Rattle.assembler.specs.Emit.{lost_from, start_from, string_constants, put_by, words_from, four_bytes, header_of};
ghost use Rattle.assembler.specs.Statements.{meant};

use crate::characters::{count_characters, first_character};
use crate::line::statement_of;
use crate::sizes::Sizes;
use crate::statement::Statement;
use crate::symbols::Symbols;
use lexer::lines::Lines;
use output::writer::Writer;

/// The line of the first use of a label that is not defined.
pub(crate) fn find_lost(symbols: Symbols) -> Option<usize>
    ensures { result ≡ lost_from (name_in symbols.entry.text.now) symbols.entry.labels.now 1 (lines_of symbols.entry.text.now) }
{
    for line in Lines::new(symbols.text) {
        if symbols.lacks(statement_of(line)) {
            return Some(line.number);
        }
    }
    None
}

/// The first instruction.
pub(crate) fn find_start(symbols: Symbols) -> u32
    ensures { result ≡ start_from (name_in symbols.entry.text.now) symbols.entry.labels.now (lines_of symbols.entry.text.now) }
{
    for line in Lines::new(symbols.text) {
        if let Some(first) = symbols.start_in(statement_of(line)) {
            return first;
        }
    }
    0
}

/// Writes a word, least byte first.
fn put_word(writer: &mut Writer, word: u32)
    ensures { Put writer.old (four_bytes word) writer.new }
{
    writer.put(&word.to_le_bytes());
}

/// Writes a word for each character up to the closing quote, and a 0.
fn put_characters(writer: &mut Writer, rest: &[u8])
    requires { is_some (until_quote rest.now) ≡ true }
    ensures { Put writer.old (flat_map four_bytes (string_constants (until_quote rest.now))) writer.new }
{
    let mut left = rest;
    while let Some((character, after)) = first_character(left) {
        put_word(writer, u32::from(character));
        left = after;
    }
    put_word(writer, 0);
}

/// Writes a word for each character of a string past its opening quote, and a 0.
fn put_string(writer: &mut Writer, part: &[u8])
    ensures { Put writer.old (flat_map four_bytes (string_constants (characters part.now))) writer.new }
{
    if count_characters(part).is_some() {
        put_characters(writer, &part[1..]);
    }
}

/// Writes the words of a statement.
fn put_statement(writer: &mut Writer, symbols: Symbols, statement: Option<Statement>)
    requires low { LowLabels symbols.labels.now }
    requires clear { Clear (option_map meant statement) }
    ensures { Put writer.old (flat_map four_bytes (put_by (name_in symbols.entry.text.now) symbols.entry.labels.now (option_map meant statement.entry))) writer.new }
{
    let Some(statement) = statement else {
        return;
    };
    match statement {
        Statement::Code(word) | Statement::Constant(word) => put_word(writer, word),
        Statement::Labelled { word, label } => {
            let address = symbols.address_of(label).unwrap_or(0);
            put_word(writer, word | address);
        }
        Statement::Text(part) => put_string(writer, part),
        Statement::Stack(_) | Statement::End(_) | Statement::EndAt(_) => {}
    }
}

/// Writes the words of all lines.
pub(crate) fn put_words(writer: &mut Writer, symbols: Symbols)
    requires { LowLabels symbols.labels.now }
    ensures { Put writer.old (flat_map four_bytes (words_from (name_in symbols.entry.text.now) symbols.entry.labels.now (lines_of symbols.entry.text.now))) writer.new }
{
    for line in Lines::new(symbols.text) {
        put_statement(writer, symbols, statement_of(line));
    }
}

/// Writes the header of an executable.
pub(crate) fn put_header(writer: &mut Writer, sizes: Sizes, first: u32, stack: u32)
    ensures { Put writer.old (header_of sizes.code sizes.constants first stack) writer.new }
{
    writer.put(b"ThisIsKarmaExec\0");
    put_word(writer, 4 * sizes.code);
    put_word(writer, 4 * sizes.constants);
    put_word(writer, first);
    put_word(writer, stack);
    put_word(writer, 239);
    writer.put(&[0; 476]);
}
