//! The pair at a register, and its registers.

ghost use Rattle.std.specs.Prelude.{◌≡◌, ◌+◌};
ghost use Rattle.machine.specs.Pairs.{first_of, pair_at};

use crate::cause::Cause;
use crate::pair::Pair;
use isa::register::Register;

impl Pair {
    /// Question 33: the pair that begins with a register.
    pub(crate) fn at(low: Register) -> Result<Pair, Cause>
        ensures { first_of result ≡ pair_at low.number }
    {
        if low.number < 15 {
            Ok(Pair { low })
        } else {
            Err(Cause::Pair)
        }
    }

    /// The register of the low half.
    pub(crate) fn low(self) -> Register
        ensures { result.number ≡ self.low.number }
    {
        self.low
    }

    /// The register of the high half.
    pub(crate) fn high(self) -> Register
        ensures { result.number ≡ self.low.number + 1 }
    {
        Register {
            number: self.low.number + 1,
        }
    }
}
