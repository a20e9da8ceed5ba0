//! The characters of a string.

ghost use Rattle.std.specs.Prelude.{◌≡◌, ◌<◌, length, IfSome};
ghost use Rattle.std.specs.Option.{option_map};
ghost use Rattle.assembler.specs.Characters.{characters, plain_character, first_character, until_quote};

use lexer::escape::escaped;

/// A byte that stands for itself: 32 to 126.
fn plain_character(b: u8) -> Option<u8>
    ensures { result ≡ plain_character b }
{
    matches!(b, 32..=126).then_some(b)
}

/// The character in front of a string past its opening quote, and the bytes after that character; none at a
/// quote, and where no character is in front.
pub(crate) fn first_character<'a>(rest: &'a [u8]) -> Option<(u8, &'a [u8])>
    ensures { option_map (λ x. (x.0, x.1.now)) result ≡ first_character rest.now }
{
    match rest {
        [] | [_] | [b'"', ..] => None,
        [b'\\', escape, left @ ..] => Some((escaped(*escape)?, left)),
        [plain, left @ ..] => Some((plain_character(*plain)?, left)),
    }
}

/// How many characters stand in a string past its opening quote.
fn count_rest(rest: &[u8]) -> Option<usize>
    ensures { result ≡ option_map length (until_quote rest.now) }
{
    let mut count = 0;
    let mut left = rest;
    while let Some((_, after)) = first_character(left) {
        left = after;
        count += 1;
    }
    (left == b"\"".as_slice()).then_some(count)
}

/// How many characters a quoted word has, or none where it is no string.
pub(crate) fn count_characters(word: &[u8]) -> Option<usize>
    ensures value { result ≡ option_map length (characters word.now) }
    ensures within { IfSome result (λ n. n < length word.now) }
{
    match word {
        [b'"', rest @ ..] => count_rest(rest),
        _ => None,
    }
}
