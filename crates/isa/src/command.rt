//! Commands, and the words that they are assembled to.

ghost use Rattle.std.specs.Prelude.{◌≡◌};
ghost use Rattle.isa.specs.Table.{form_of};
ghost use Rattle.isa.specs.Operands.{form_in};

use crate::opcode::Opcode;
use crate::operands::Operands;
use crate::word::{above, code};

/// An opcode with operands of its form.
#[derive(Clone, Copy)]
pub struct Command {
    pub opcode: Opcode,
    pub operands: Operands,
    ghost fits: { form_in operands ≡ form_of opcode },
}

impl Command {
    ghost use Rattle.std.specs.Prelude.{Some, SomeIff, IfSome};
    ghost use Rattle.std.specs.Option.{option_map};
    ghost use Rattle.isa.specs.Command.{plain, instruction, encoded, decoded};
    ghost use Rattle.isa.specs.Operands.{numbers_in};

    /// The command of an opcode and operands, or none where they are not of its form.
    pub fn new(opcode: Opcode, operands: Operands) -> Option<Command>
        ensures { SomeIff (option_map plain result)
            (form_in operands ≡ form_of opcode)
            (instruction opcode (numbers_in operands)) }
    {
        if operands.form() == opcode.form() {
            Some(Command { opcode, operands })
        } else {
            None
        }
    }

    /// The command that a word is, or none where no command is assembled to it.
    pub fn decode(word: u32) -> Option<Command>
        ensures value { option_map plain result ≡ decoded word }
        ensures back { IfSome result (λ c. encoded (plain c) ≡ word) }
    {
        let opcode = Opcode::from_code(code(word))?;
        let operands = Operands::in_word(opcode.form(), word)?;
        Some(Command { opcode, operands })
    }

    /// The word that the command is assembled to.
    pub fn encode(self) -> u32
        ensures value { result ≡ encoded (plain self) }
        ensures back { decoded result ≡ Some (plain self) }
    {
        above::<24>(self.opcode.code(), self.operands.bits())
    }
}
