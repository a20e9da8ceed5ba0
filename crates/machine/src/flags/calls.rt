//! Setting and reading the flags.

ghost use Rattle.std.specs.Prelude.{◌≡◌};
ghost use Rattle.machine.specs.declared.flags.calls.Condition.{Condition};
ghost use Rattle.machine.specs.Flags.{flags_after, is_met, satisfies};

use crate::flags::Flags;
use std::cmp::Ordering;

/// What a conditional jump asks of the latest comparison.
#[derive(Clone, Copy, PartialEq, Eq)]
pub(crate) enum Condition {
    Equal,
    NotEqual,
    Greater,
    Less,
    GreaterOrEqual,
    LessOrEqual,
}

impl Flags {
    /// The flags before any comparison.
    pub fn new() -> Flags
        ensures { result.value ≡ 0 }
    {
        Flags { value: 0 }
    }

    /// The flags after a comparison. There is no order where a double is not a number.
    pub fn compared(order: Option<Ordering>) -> Flags
        ensures value { result.value ≡ flags_after order }
        ensures met { (c : Condition) → is_met c result.value ≡ satisfies c order }
    {
        let value = match order {
            None => 2,
            Some(Ordering::Greater) => 22,
            Some(Ordering::Less) => 42,
            Some(Ordering::Equal) => 49,
        };
        Flags { value }
    }

    /// What the flags register holds.
    pub fn value(self) -> u8
        ensures { result ≡ self.value }
    {
        self.value
    }

    /// Whether a condition's bit is set.
    pub(crate) fn meet(self, condition: Condition) -> bool
        ensures { result ≡ is_met condition self.value }
    {
        use Condition::{Equal, Greater, GreaterOrEqual, Less, LessOrEqual, NotEqual};
        match self.value {
            0 => false,
            2 => matches!(condition, NotEqual),
            22 => matches!(condition, NotEqual | Greater | GreaterOrEqual),
            42 => matches!(condition, NotEqual | Less | LessOrEqual),
            49 => matches!(condition, Equal | GreaterOrEqual | LessOrEqual),
            _ => unreachable!(),
        }
    }
}
