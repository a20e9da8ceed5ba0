//! The order of two doubles.

ghost use Rattle.std.specs.Prelude.{◌≡◌};
ghost use Rattle.doubles.specs.Doubles.{compared};

use std::cmp::Ordering;
use std::num::f64_from_bits_with_nan;

/// How the first double compares with the second; none where one of them is not a number. Both zeros are equal.
pub fn compare(a: u64, b: u64) -> Option<Ordering>
    ensures { result ≡ compared a b }
{
    f64_from_bits_with_nan(a).partial_cmp(&f64_from_bits_with_nan(b))
}
