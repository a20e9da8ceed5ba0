//! Arithmetic, rounded once to the nearest double, ties to even. What is not a number is 0x7FF8000000000000.

ghost use Rattle.std.specs.Prelude.{◌≡◌};
ghost use Rattle.doubles.specs.Doubles.{sum, difference, product, quotient};

use std::num::{f64_from_bits_with_nan, f64_to_bits_with_nan};

/// The sum of two doubles.
pub fn add(a: u64, b: u64) -> u64
    ensures { result ≡ sum a b }
{
    f64_to_bits_with_nan(f64_from_bits_with_nan(a) + f64_from_bits_with_nan(b))
}

/// The first double less the second.
pub fn subtract(a: u64, b: u64) -> u64
    ensures { result ≡ difference a b }
{
    f64_to_bits_with_nan(f64_from_bits_with_nan(a) - f64_from_bits_with_nan(b))
}

/// The product of two doubles.
pub fn multiply(a: u64, b: u64) -> u64
    ensures { result ≡ product a b }
{
    f64_to_bits_with_nan(f64_from_bits_with_nan(a) * f64_from_bits_with_nan(b))
}

/// The first double divided by the second.
pub fn divide(a: u64, b: u64) -> u64
    ensures { result ≡ quotient a b }
{
    f64_to_bits_with_nan(f64_from_bits_with_nan(a) / f64_from_bits_with_nan(b))
}
