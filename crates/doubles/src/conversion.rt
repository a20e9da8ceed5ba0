//! Between words and doubles.

ghost use Rattle.std.specs.Prelude.{◌≡◌};
ghost use Rattle.doubles.specs.Doubles.{of_word, to_word};

use std::num::{f64_from_bits_with_nan, f64_to_bits_with_nan, saturating_f64_to_u32};

/// The double that is a word's number.
pub fn from_word(number: u32) -> u64
    ensures { result ≡ of_word number }
{
    f64_to_bits_with_nan(f64::from(number))
}

/// 37: without its fraction, the double is no number of 32 bits.
#[derive(Clone, Copy)]
pub struct OutOfRange;

impl OutOfRange {
    /// The number by which the refusal is reported.
    pub fn number(self) -> u8
        ensures { result ≡ 37 }
    {
        37
    }
}

/// The whole part of a double, where it is in range.
pub fn to_word(double: u64) -> Result<u32, OutOfRange>
    ensures { result ≡ to_word double }
{
    let value = f64_from_bits_with_nan(double);
    if -1.0 < value && value < 4_294_967_296.0 {
        Ok(saturating_f64_to_u32(value))
    } else {
        Err(OutOfRange)
    }
}
