//! Words as a processor takes them apart. Where it runs a word, what a form leaves out may have any bits.

ghost use Rattle.std.specs.Prelude.{◌≡◌};
ghost use Rattle.isa.specs.Fields.{code_field, first_field, source_field, address_field, modifier_word, immediate_word};
ghost use Rattle.isa.specs.Table.{opcode_at};

use crate::address::Address;
use crate::opcode::Opcode;
use crate::register::Register;
use crate::word;

/// A word that was fetched.
#[derive(Clone, Copy)]
pub struct Fetched {
    pub word: u32,
}

impl Fetched {
    /// The opcode with the code in bits 24 to 31, or none for a code above 53.
    pub fn opcode(self) -> Option<Opcode>
        ensures { result ≡ opcode_at (code_field self.word) }
    {
        Opcode::from_code(word::code(self.word))
    }

    /// The register in bits 20 to 23.
    pub fn first(self) -> Register
        ensures { result.number ≡ first_field self.word }
    {
        word::register_at::<20>(self.word)
    }

    /// The register in bits 16 to 19.
    pub fn source(self) -> Register
        ensures { result.number ≡ source_field self.word }
    {
        word::register_at::<16>(self.word)
    }

    /// The modifier in bits 0 to 15, as what it adds modulo 2^32.
    pub fn modifier(self) -> u32
        ensures { result ≡ modifier_word self.word }
    {
        word::signed::<16>(self.word).cast_unsigned()
    }

    /// The immediate in bits 0 to 19, modulo 2^32.
    pub fn immediate(self) -> u32
        ensures { result ≡ immediate_word self.word }
    {
        word::signed::<20>(self.word).cast_unsigned()
    }

    /// The address in bits 0 to 19.
    pub fn address(self) -> Address
        ensures { result.value ≡ address_field self.word }
    {
        word::address(self.word)
    }
}
