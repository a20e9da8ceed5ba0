//! The operands of a command.

ghost use Rattle.std.specs.Prelude.{◌≡◌, ℕ, ◌+◌, ◌*◌, ◌%◌, ◌^◌, ◌<◌, Some, IfSome};
ghost use Rattle.std.specs.Option.{option_map};
ghost use Rattle.isa.specs.Command.{operand_bits, operands_in};
ghost use Rattle.isa.specs.Operands.{form_in, numbers_in};

use crate::address::Address;
use crate::form::Form;
use crate::immediate::Immediate;
use crate::register::Register;
use crate::word::{above, address, bits_of, register_at, signed};

/// The operands of a command, by its form.
#[derive(Clone, Copy)]
pub enum Operands {
    Rr {
        first: Register,
        source: Register,
        modifier: i16,
    },
    Ri {
        first: Register,
        immediate: Immediate,
    },
    Rm {
        first: Register,
        address: Address,
    },
    J {
        address: Address,
    },
}

impl Operands {
    /// The form that these operands have.
    pub fn form(self) -> Form
        ensures { result ≡ form_in self }
    {
        match self {
            Operands::Rr { .. } => Form::Rr,
            Operands::Ri { .. } => Form::Ri,
            Operands::Rm { .. } => Form::Rm,
            Operands::J { .. } => Form::J,
        }
    }

    /// The operands of a form in a word, or none where no operands of the form are assembled to its bits.
    pub(crate) fn in_word(form: Form, word: u32) -> Option<Operands>
        ensures value { option_map numbers_in result ≡ operands_in form word }
        ensures form { IfSome result (λ s. form_in s ≡ form) }
        ensures back { IfSome result (λ s. operand_bits (numbers_in s) ≡ word % 2 ^ 24) }
    {
        let first = register_at::<20>(word);
        match form {
            Form::Rr => Some(Operands::Rr {
                first,
                source: register_at::<16>(word),
                modifier: signed::<16>(word) as i16,
            }),
            Form::Ri => Some(Operands::Ri {
                first,
                immediate: Immediate {
                    value: signed::<20>(word),
                },
            }),
            Form::Rm => Some(Operands::Rm {
                first,
                address: address(word),
            }),
            Form::J if first.number == 0 => Some(Operands::J {
                address: address(word),
            }),
            Form::J => None,
        }
    }

    /// Bits 0 to 23 of a word with these operands.
    pub(crate) fn bits(self) -> u32
        ensures value { result ≡ operand_bits (numbers_in self) }
        ensures fits { result < 2 ^ 24 }
        ensures back { (code : ℕ) → operands_in (form_in self) (code * 2 ^ 24 + result) ≡ Some (numbers_in self) }
    {
        match self {
            Operands::Rr {
                first,
                source,
                modifier,
            } => {
                let low = above::<16>(source.number, bits_of::<16>(i32::from(modifier)));
                above::<20>(first.number, low)
            }
            Operands::Ri { first, immediate } => {
                above::<20>(first.number, bits_of::<20>(immediate.value))
            }
            Operands::Rm { first, address } => above::<20>(first.number, address.value),
            Operands::J { address } => address.value,
        }
    }
}
