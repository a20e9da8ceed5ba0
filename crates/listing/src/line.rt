//! Lines of a listing.

ghost use Rattle.std.specs.List.{flat_map};
ghost use Rattle.isa.specs.Command.{plain};
ghost use Rattle.isa.specs.Operands.{numbers_in};
ghost use Rattle.listing.specs.Lines.{after_blank, line_text, number_line, operand_words, plain_line, word_line};
ghost use Rattle.output.specs.Writes.{Put};

use crate::put::{put_number, put_register};
use executable::segment::Segment;
use isa::command::Command;
use isa::operands::Operands;
use output::writer::Writer;

/// Writes a line of a name and a number.
pub(crate) fn put_number_line(writer: &mut Writer<'_>, name: &[u8], number: u32)
    ensures { Put writer.old (line_text (number_line name.now number)) writer.new }
{
    writer.put(name);
    put_number(writer, number);
    writer.put_byte(b'\n');
}

/// Writes operands, each after a blank.
fn put_operands(writer: &mut Writer<'_>, operands: Operands)
    ensures { Put writer.old (flat_map after_blank (operand_words (numbers_in operands))) writer.new }
{
    match operands {
        Operands::Rr {
            first,
            source,
            modifier,
        } => {
            put_register(writer, first);
            put_register(writer, source);
            put_number(writer, modifier);
        }
        Operands::Ri { first, immediate } => {
            put_register(writer, first);
            put_number(writer, immediate.value);
        }
        Operands::Rm { first, address } => {
            put_register(writer, first);
            put_number(writer, address.value);
        }
        Operands::J { address } => put_number(writer, address.value),
    }
}

/// Writes the line of a command.
fn put_command(writer: &mut Writer<'_>, command: Command)
    ensures { Put writer.old (line_text (plain_line (plain command))) writer.new }
{
    writer.put(command.opcode.name());
    put_operands(writer, command.operands);
    writer.put_byte(b'\n');
}

/// Writes the line of a word.
pub(crate) fn put_word(writer: &mut Writer<'_>, segment: Segment, word: u32)
    ensures { Put writer.old (line_text (word_line segment word)) writer.new }
{
    match segment {
        Segment::Code => match Command::decode(word) {
            Some(command) => put_command(writer, command),
            None => put_number_line(writer, b"word", word),
        },
        Segment::Constants => put_number_line(writer, b"uint32", word),
    }
}
