//! Division of a number of two words by a word.

ghost use Rattle.std.specs.Prelude.{◌≡◌, ◌+◌, ◌*◌, ◌<◌, IfOk};
ghost use Rattle.integers.specs.Division.{divided};

/// 36: is there a quotient that one register can hold? With a divisor of zero there is none.
#[derive(Clone, Copy)]
pub struct NoFit;

impl NoFit {
    /// The number by which the refusal is reported.
    pub fn number(self) -> u8
        ensures { result ≡ 36 }
    {
        36
    }
}

/// The quotient and the remainder, where the quotient fits in a word.
pub fn divide(dividend: u64, divisor: u32) -> Result<(u32, u32), NoFit>
    ensures value { result ≡ divided dividend divisor }
    ensures whole { IfOk result (λ r. r.0 * divisor + r.1 ≡ dividend) }
    ensures rest { IfOk result (λ r. r.1 < divisor) }
{
    let divisor = u64::from(divisor);
    let quotient = dividend.checked_div(divisor).ok_or(NoFit)?;
    let quotient = u32::try_from(quotient).map_err(|_| NoFit)?;
    Ok((quotient, (dividend % divisor) as u32))
}
