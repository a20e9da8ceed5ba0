//! Reading the operands of a statement.

ghost use Rattle.std.specs.Prelude.{◌≡◌, false, length, IfOk};
ghost use Rattle.std.specs.Option.{option_map};
ghost use Rattle.isa.specs.Operands.{form_in, numbers_in};
ghost use Rattle.isa.specs.Table.{form_of};
ghost use Rattle.assembler.specs.Operands.{places_in, places_of};
ghost use Rattle.assembler.specs.Reading.{operands_in, at_places, read_numbers, result_map};
ghost use Rattle.assembler.specs.Statements.{told, read_counted, read_by};

use crate::mnemonic::Mnemonic;
use crate::operand::{
    next_operand, read_address, read_immediate, read_modifier, read_number, read_register,
    read_string, read_target,
};
use crate::question::Question;
use crate::statement::Statement;
use crate::target::Target;
use isa::command::Command;
use isa::form::Form;
use isa::opcode::Opcode;
use isa::operands::Operands;
use lexer::words::Words;

/// The operands of a form, with the label that stands for an address.
fn read_operands<'a>(
    form: Form,
    words: &mut Words<'a>,
) -> Result<(Operands, Option<&'a [u8]>), Question>
    ensures value { result_map (λ x. (numbers_in x.0, option_map (λ l. l.now) x.1)) result ≡ read_numbers form (at_places (length (places_in form)) (operands_in words.old)) }
    ensures fits { IfOk result (λ x. form_in x.0 ≡ form) }
{
    match form {
        Form::Rr => {
            let first = read_register(next_operand(words))?;
            let source = read_register(next_operand(words))?;
            let modifier = read_modifier(next_operand(words))?;
            let operands = Operands::Rr {
                first,
                source,
                modifier,
            };
            Ok((operands, None))
        }
        Form::Ri => {
            let first = read_register(next_operand(words))?;
            let immediate = read_immediate(next_operand(words))?;
            Ok((Operands::Ri { first, immediate }, None))
        }
        Form::Rm => {
            let first = read_register(next_operand(words))?;
            let target = read_target(next_operand(words))?;
            let address = target.address();
            Ok((Operands::Rm { first, address }, target.label()))
        }
        Form::J => {
            let target = read_target(next_operand(words))?;
            let address = target.address();
            Ok((Operands::J { address }, target.label()))
        }
    }
}

/// A command, with its operands.
fn read_command<'a>(opcode: Opcode, words: &mut Words<'a>) -> Result<Statement<'a>, Question>
    ensures { told result ≡ read_counted (Mnemonic.Command opcode) (at_places (length (places_in (form_of opcode))) (operands_in words.old)) }
{
    let (operands, label) = read_operands(opcode.form(), words)?;
    let word = Command { opcode, operands }.encode();
    match label {
        Some(label) => Ok(Statement::Labelled { word, label }),
        None => Ok(Statement::Code(word)),
    }
}

/// The statement of a mnemonic and as many operands as it takes: questions 8 and 9.
fn read_counted<'a>(mnemonic: Mnemonic, words: &mut Words<'a>) -> Result<Statement<'a>, Question>
    ensures { told result ≡ read_counted mnemonic (at_places (length (places_of mnemonic)) (operands_in words.old)) }
{
    match mnemonic {
        Mnemonic::Command(opcode) => read_command(opcode, words),
        Mnemonic::Word => {
            let word = read_number(next_operand(words))?;
            Ok(Statement::Code(word))
        }
        Mnemonic::Uint32 => {
            let number = read_number(next_operand(words))?;
            Ok(Statement::Constant(number))
        }
        Mnemonic::Text => {
            let part = read_string(next_operand(words))?;
            Ok(Statement::Text(part))
        }
        Mnemonic::Stack => {
            let address = read_address(next_operand(words))?;
            Ok(Statement::Stack(address.value))
        }
        Mnemonic::End => match read_target(next_operand(words))? {
            Target::Address(address) => Ok(Statement::End(address.value)),
            Target::Label(label) => Ok(Statement::EndAt(label)),
        },
    }
}

/// How many operands a mnemonic takes.
fn operand_count(mnemonic: Mnemonic) -> usize
    ensures { result ≡ length (places_of mnemonic) }
{
    let Mnemonic::Command(opcode) = mnemonic else {
        return 1;
    };
    match opcode.form() {
        Form::Rr => 3,
        Form::Ri | Form::Rm => 2,
        Form::J => 1,
    }
}

/// The statement of a mnemonic and its operands: questions 7, 8 and 9.
pub(crate) fn read_statement<'a>(
    mnemonic: Mnemonic,
    words: &mut Words<'a>,
) -> Result<Statement<'a>, Question>
    ensures { told result ≡ read_by mnemonic (operands_in words.old) }
{
    if words.word_count() != operand_count(mnemonic) {
        return Err(Question::Count);
    }
    read_counted(mnemonic, words)
}
