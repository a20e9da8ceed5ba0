//! Words, by their kinds.

ghost use Rattle.std.specs.Prelude.{◌≡◌, ℕ, List, true};
ghost use Rattle.lexer.specs.Parts.{StandsAt};
ghost use Rattle.lexer.specs.Shown.{shown, bytes_of, kind_of, register_number, sorted};

/// A word of the text.
#[derive(Clone, Copy)]
pub enum Word<'a> {
    /// The first word of a line where it ends in a colon, without that colon.
    Label(&'a [u8]),
    /// Any word that is of no other kind.
    Name(&'a [u8]),
    /// r0 to r15.
    Register(&'a [u8]),
    /// A word whose first byte is a digit or a minus.
    Number(&'a [u8]),
    /// A word whose first byte is a quote.
    String(&'a [u8]),
}

/// A word with its line and its place in the text.
#[derive(Clone, Copy)]
pub struct Token<'a> {
    pub line: usize,
    pub place: usize,
    pub word: Word<'a>,
}

/// The number of a register's name, or none for another word.
pub fn register_number(word: &[u8]) -> Option<u8>
    ensures { result ≡ register_number word.now }
{
    match word {
        [b'r', d @ b'0'..=b'9'] => Some(*d - b'0'),
        [b'r', b'1', d @ b'0'..=b'5'] => Some(*d - b'0' + 10),
        _ => None,
    }
}

/// The kind of a word that is no label.
pub(crate) fn kind_of<'a>(word: &'a [u8]) -> Word<'a>
    ensures { shown result ≡ kind_of word.now }
{
    match word {
        [b'"', ..] => Word::String(word),
        [b'0'..=b'9' | b'-', ..] => Word::Number(word),
        _ if register_number(word).is_some() => Word::Register(word),
        _ => Word::Name(word),
    }
}

/// The kind of the first word of a line.
#[tactic(auto, using(crate::proofs::Stands::front_stands, crate::proofs::Stands::kind_bytes))]
pub(crate) fn first_kind<'a>(word: &'a [u8]) -> Word<'a>
    ensures kind { shown result ≡ sorted true word.now }
    ensures stands { (text : List ℕ) (p : ℕ) → StandsAt text p word.now → StandsAt text p (bytes_of (shown result)) }
{
    match word {
        [name @ .., b':'] => Word::Label(name),
        _ => kind_of(word),
    }
}
