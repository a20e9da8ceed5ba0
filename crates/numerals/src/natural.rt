//! Numerals without a sign: `0`, decimal, octal after `0`, hexadecimal after `0x` or `0X`.

ghost use Rattle.std.specs.Prelude.{◌≡◌, ◌≤◌, [], ◌∷◌};
ghost use Rattle.std.specs.Option.{option_map};
ghost use Rattle.numerals.specs.Natural.{go_on, digits_in, after_zero, natural, capped};

/// Above every range that a numeral is asked about.
const LIMIT: u64 = 1 << 32;

/// The number that digits write, of which the front writes `value` and the last is `b`, or none where that is no digit.
fn push_digit(value: u64, b: u8, radix: u32) -> Option<u64>
    requires { (2 ≤ radix) × (radix ≤ 16) }
    ensures { result ≡ option_map capped (go_on radix value (b ∷ [])) }
{
    let digit = char::from(b).to_digit(radix)?;
    let longer = value
        .saturating_mul(u64::from(radix))
        .saturating_add(u64::from(digit));
    Some(longer.min(LIMIT))
}

/// The number that digits write, or none where there is no digit or another byte.
fn digits(s: &[u8], radix: u32) -> Option<u64>
    requires { (2 ≤ radix) × (radix ≤ 16) }
    ensures { result ≡ option_map capped (digits_in radix s.now) }
{
    if s.is_empty() {
        return None;
    }
    s.iter()
        .try_fold(0, |value, b| push_digit(value, *b, radix))
}

fn after_zero(rest: &[u8]) -> Option<u64>
    ensures { result ≡ option_map capped (after_zero rest.now) }
{
    match rest {
        [] => Some(0),
        [b'x' | b'X', hex @ ..] => digits(hex, 16),
        _ => digits(rest, 8),
    }
}

/// The number that a word writes, or none where it is no numeral. A number above 4,294,967,296 is told as that.
pub fn read_natural(word: &[u8]) -> Option<u64>
    ensures { result ≡ option_map capped (natural word.now) }
{
    match word {
        [b'0', rest @ ..] => after_zero(rest),
        _ => digits(word, 10),
    }
}
