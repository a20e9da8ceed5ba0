//! What stands on a line besides its operands.

ghost use Rattle.std.specs.Prelude.{◌≡◌, not, ◌||◌, is_some};
ghost use Rattle.std.specs.Option.{option_map};
ghost use Rattle.lexer.specs.Shown.{shown};
ghost use Rattle.assembler.specs.Lines.{named};
ghost use Rattle.assembler.specs.Questions.{is};
ghost use Rattle.assembler.specs.Mnemonics.{is_code, is_constant, is_directive, is_stack};

use crate::mnemonic::Mnemonic;
use lexer::word::Token;

/// Whether a line has a label and a word after it, and what that word names.
#[derive(Clone, Copy)]
pub(crate) struct Heading {
    pub(crate) labelled: bool,
    pub(crate) named: bool,
    pub(crate) mnemonic: Option<Mnemonic>,
}

impl Heading {
    /// The heading of a line with a label or none, by the word after it.
    pub(crate) fn new(labelled: bool, next: Option<Token>) -> Heading
        ensures labelled { result.labelled ≡ labelled }
        ensures named { result.named ≡ is_some next.entry }
        ensures mnemonic { result.mnemonic ≡ named (option_map (λ t. shown t.word) next.entry) }
    {
        Heading {
            labelled,
            named: next.is_some(),
            mnemonic: next.and_then(|token| Mnemonic::of_word(token.word)),
        }
    }

    /// Whether there are words.
    pub(crate) fn has_words(self) -> bool
        ensures { result ≡ (self.labelled || self.named) }
    {
        self.labelled || self.named
    }

    /// Question 5: is the word after the label, where there is one, a known one?
    pub(crate) fn is_known(self) -> bool
        ensures { result ≡ (not self.named || is_some self.mnemonic) }
    {
        !self.named || self.mnemonic.is_some()
    }

    /// Whether it is a command or `word`.
    pub(crate) fn is_code(self) -> bool
        ensures { result ≡ is is_code self.mnemonic }
    {
        matches!(self.mnemonic, Some(Mnemonic::Command(_) | Mnemonic::Word))
    }

    /// Whether it is a `uint32` or `string`.
    pub(crate) fn is_constant(self) -> bool
        ensures { result ≡ is is_constant self.mnemonic }
    {
        matches!(self.mnemonic, Some(Mnemonic::Uint32 | Mnemonic::Text))
    }

    /// Whether it is a directive.
    pub(crate) fn is_directive(self) -> bool
        ensures { result ≡ is is_directive self.mnemonic }
    {
        matches!(self.mnemonic, Some(Mnemonic::Stack | Mnemonic::End))
    }

    /// Whether it is a `stack`.
    pub(crate) fn is_stack(self) -> bool
        ensures { result ≡ is is_stack self.mnemonic }
    {
        matches!(self.mnemonic, Some(Mnemonic::Stack))
    }
}
