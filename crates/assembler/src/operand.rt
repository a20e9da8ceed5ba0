//! Reading one operand: questions 8 and 9.

ghost use Rattle.std.specs.Prelude.{◌≡◌, ◌^◌, pos, false, [], drop, Some};
ghost use Rattle.std.specs.Option.{option_map, unwrap_or};
ghost use Rattle.isa.specs.Ranges.{below, in_bits};
ghost use Rattle.lexer.specs.Shown.{shown};
ghost use Rattle.numerals.specs.Integer.{capped_integer};
ghost use Rattle.numerals.specs.Natural.{capped};
ghost use Rattle.assembler.specs.Operands.{register_in, integer_in, natural_in, label_in, characters_in, a_register, a_modifier, an_immediate, a_number, an_address, a_target, a_string, operand};
ghost use Rattle.assembler.specs.Characters.{characters};
ghost use Rattle.assembler.specs.Reading.{operands_in, placed, result_map, aimed};

use crate::characters::count_characters;
use crate::question::Question;
use crate::reserved::is_usable;
use crate::target::Target;
use isa::address::Address;
use isa::immediate::Immediate;
use isa::register::Register;
use lexer::word::{Word, register_number};
use lexer::words::Words;
use numerals::integer::read_integer;
use numerals::natural::read_natural;

/// The next operand; where there is none, a name that nothing has.
pub(crate) fn next_operand<'a>(words: &mut Words<'a>) -> Word<'a>
    ensures value { shown result ≡ operand 0 (operands_in words.old) }
    ensures left { operands_in words.new ≡ drop 1 (operands_in words.old) }
{
    words.next_word().map_or(Word::Name(b""), |told| told.word)
}

/// The register that a word names.
fn register_of(word: Word) -> Option<Register>
    ensures { option_map (λ q. q.number) result ≡ register_in (shown word.entry) }
{
    let Word::Register(part) = word else {
        return None;
    };
    let Some(number) = register_number(part) else {
        return None;
    };
    Register::new(number)
}

/// The integer that a word writes.
fn integer_of(word: Word) -> Option<i64>
    ensures { result ≡ option_map capped_integer (integer_in (shown word.entry)) }
{
    let Word::Number(part) = word else {
        return None;
    };
    read_integer(part)
}

/// The number without a sign that a word writes.
fn natural_of(word: Word) -> Option<u64>
    ensures { result ≡ option_map capped (natural_in (shown word.entry)) }
{
    let Word::Number(part) = word else {
        return None;
    };
    read_natural(part)
}

/// The label that a word is the name of.
fn label_of<'a>(word: Word<'a>) -> Option<&'a [u8]>
    ensures { option_map (λ x. x.now) result ≡ label_in (shown word.entry) }
{
    let Word::Name(part) = word else {
        return None;
    };
    is_usable(part).then_some(part)
}

/// A register.
pub(crate) fn read_register(word: Word) -> Result<Register, Question>
    ensures { result_map (λ q. q.number) result ≡ placed a_register (shown word.entry) (unwrap_or (register_in (shown word.entry)) 0) }
{
    let Some(register) = register_of(word) else {
        return Err(Question::Form);
    };
    Ok(register)
}

/// A signed number of 16 bits.
pub(crate) fn read_modifier(word: Word) -> Result<i16, Question>
    ensures { result ≡ placed a_modifier (shown word.entry) (unwrap_or (integer_in (shown word.entry)) (pos 0)) }
{
    let Some(number) = integer_of(word) else {
        return Err(Question::Form);
    };
    let Ok(modifier) = i16::try_from(number) else {
        return Err(Question::Range);
    };
    Ok(modifier)
}

/// An integer as an immediate.
fn immediate_from(number: i64) -> Option<Immediate>
    ensures { option_map (λ i. i.value) result ≡ in_bits 20 number }
{
    let Ok(number) = i32::try_from(number) else {
        return None;
    };
    Immediate::new(number)
}

/// A signed number of 20 bits.
pub(crate) fn read_immediate(word: Word) -> Result<Immediate, Question>
    ensures { result_map (λ i. i.value) result ≡ placed an_immediate (shown word.entry) (unwrap_or (integer_in (shown word.entry)) (pos 0)) }
{
    let Some(number) = integer_of(word) else {
        return Err(Question::Form);
    };
    let Some(immediate) = immediate_from(number) else {
        return Err(Question::Range);
    };
    Ok(immediate)
}

/// A number of 32 bits.
pub(crate) fn read_number(word: Word) -> Result<u32, Question>
    ensures { result ≡ placed a_number (shown word.entry) (unwrap_or (natural_in (shown word.entry)) 0) }
{
    let Some(number) = natural_of(word) else {
        return Err(Question::Form);
    };
    let Ok(number) = u32::try_from(number) else {
        return Err(Question::Range);
    };
    Ok(number)
}

/// A number as an address.
fn address_from(number: u64) -> Option<Address>
    ensures { option_map (λ a. a.value) result ≡ below (2 ^ 20) number }
{
    let Ok(number) = u32::try_from(number) else {
        return None;
    };
    Address::new(number)
}

/// An address.
pub(crate) fn read_address(word: Word) -> Result<Address, Question>
    ensures { result_map (λ a. a.value) result ≡ placed an_address (shown word.entry) (unwrap_or (natural_in (shown word.entry)) 0) }
{
    let Some(number) = natural_of(word) else {
        return Err(Question::Form);
    };
    let Some(address) = address_from(number) else {
        return Err(Question::Range);
    };
    Ok(address)
}

/// An address or a label.
pub(crate) fn read_target<'a>(word: Word<'a>) -> Result<Target<'a>, Question>
    ensures { result_map aimed result ≡ placed a_target (shown word.entry) (unwrap_or (natural_in (shown word.entry)) 0, label_in (shown word.entry)) }
{
    if let Some(label) = label_of(word) {
        return Ok(Target::Label(label));
    }
    let Some(number) = natural_of(word) else {
        return Err(Question::Form);
    };
    let Some(address) = address_from(number) else {
        return Err(Question::Range);
    };
    Ok(Target::Address(address))
}

/// A quoted word.
pub(crate) fn read_string<'a>(word: Word<'a>) -> Result<&'a [u8], Question>
    ensures { result_map (λ s. characters s.now) result ≡ placed a_string (shown word.entry) (Some (unwrap_or (characters_in (shown word.entry)) [])) }
{
    let Word::String(part) = word else {
        return Err(Question::Form);
    };
    let Some(_) = count_characters(part) else {
        return Err(Question::Form);
    };
    Ok(part)
}
