//! Numerals that may have a minus in front.

ghost use Rattle.std.specs.Prelude.{◌≡◌};
ghost use Rattle.std.specs.Option.{option_map};
ghost use Rattle.numerals.specs.Integer.{integer, capped_integer};

use crate::natural::read_natural;

/// The number that a word writes, with a minus or without, or none where it is no numeral. A size above
/// 4,294,967,296 is told as that.
pub fn read_integer(word: &[u8]) -> Option<i64>
    ensures { result ≡ option_map capped_integer (integer word.now) }
{
    match word {
        [b'-', rest @ ..] => read_natural(rest).map(|n| -(n as i64)),
        _ => read_natural(word).map(|n| n as i64),
    }
}
