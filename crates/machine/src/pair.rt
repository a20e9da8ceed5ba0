//! Pairs of registers.

ghost use Rattle.std.specs.Prelude.{◌<◌};

use isa::register::Register;

mod calls;

/// A register and the next one: the low half of a number of 64 bits is in the first.
#[derive(Clone, Copy)]
pub(crate) struct Pair {
    low: Register,
    ghost few: { low.number < 15 },
}
