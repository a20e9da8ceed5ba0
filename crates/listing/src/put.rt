//! Writing numbers and registers, each a word after a blank. Their digits come from `itoa` and not from `write!`: a
//! listing never fails, and no contract of `fmt::Write` rules its error out.

ghost use Rattle.listing.specs.Lines.{after_blank, register_name};
ghost use Rattle.output.specs.Writes.{Put};

use isa::register::Register;
use itoa::{Buffer, Integer};
use output::writer::Writer;

/// Writes a number in decimal after a blank.
pub(crate) fn put_number<I: Integer>(writer: &mut Writer<'_>, number: I)
    ensures { Put writer.old (after_blank (I.text number)) writer.new }
{
    writer.put_byte(b' ');
    writer.put(Buffer::new().format(number).as_bytes());
}

/// Writes a register's name after a blank.
pub(crate) fn put_register(writer: &mut Writer<'_>, register: Register)
    ensures { Put writer.old (after_blank (register_name register.number)) writer.new }
{
    writer.put(b" r");
    writer.put(Buffer::new().format(register.number).as_bytes());
}
