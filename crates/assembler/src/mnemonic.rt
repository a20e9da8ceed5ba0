//! The names of commands, constants and directives.

ghost use Rattle.std.specs.Prelude.{◌≡◌, Some};
ghost use Rattle.assembler.specs.Mnemonics.{mnemonic_of};
ghost use Rattle.lexer.specs.Shown.{shown};
ghost use Rattle.assembler.specs.Lines.{named};
ghost use Rattle.std.specs.Option.{option_map};
ghost use Rattle.isa.specs.Table.{opcode_named};

use isa::opcode::Opcode;
use lexer::word::Word;

/// What the name of a line says.
#[derive(Clone, Copy)]
pub enum Mnemonic {
    Command(Opcode),
    /// `word`: a number put between commands.
    Word,
    Uint32,
    /// `string`
    Text,
    Stack,
    End,
}

impl Mnemonic {
    /// The mnemonic with a name, or none for another word.
    #[tactic(auto, unfolding(crate::specs::Mnemonics::mnemonic_of))]
    pub(crate) fn from_name(name: &[u8]) -> Option<Mnemonic>
        ensures { result ≡ mnemonic_of name.now }
    {
        if name == b"word".as_slice() {
            Some(Mnemonic::Word)
        } else if name == b"uint32".as_slice() {
            Some(Mnemonic::Uint32)
        } else if name == b"string".as_slice() {
            Some(Mnemonic::Text)
        } else if name == b"stack".as_slice() {
            Some(Mnemonic::Stack)
        } else if name == b"end".as_slice() {
            Some(Mnemonic::End)
        } else {
            Opcode::from_name(name).map(Mnemonic::Command)
        }
    }

    /// What a word names, if it is a name.
    pub(crate) fn of_word(word: Word) -> Option<Mnemonic>
        ensures { result ≡ named (Some (shown word.entry)) }
    {
        match word {
            Word::Name(name) => Mnemonic::from_name(name),
            _ => None,
        }
    }
}
