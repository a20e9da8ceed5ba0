//! The check of an executable.

ghost use Rattle.std.specs.Prelude.{◌≡◌};
ghost use Rattle.executable.specs.Check.{shown, ask, checked, OnlyFirstNo};

use crate::header::Header;
use crate::parts::Executable;
use crate::refusal::Refusal;

/// The parts of an executable, or the first of refusals 20 to 26.
pub fn check(bytes: &[u8]) -> Result<Executable<'_>, Refusal>
    ensures value { shown result ≡ checked bytes.now }
    ensures first { OnlyFirstNo bytes.now (shown result) }
{
    let header = Header::new(bytes).ok_or(Refusal::TooShort)?;
    ask(header.is_marked(), Refusal::NoMark)?;
    ask(header.has_right_processor(), Refusal::OtherProcessor)?;
    ask(header.has_zero_filler(), Refusal::FillerNotZero)?;
    ask(header.has_right_sizes(), Refusal::BadSizes)?;
    ask(header.has_right_length(), Refusal::OtherLength)?;
    ask(header.has_right_addresses(), Refusal::AddressTooLarge)?;
    Ok(header.parts())
}

/// Goes on where a question gets a yes, and else refuses.
fn ask(answer: bool, refusal: Refusal) -> Result<(), Refusal>
    ensures { result ≡ ask answer refusal (Ok tt) }
{
    if answer { Ok(()) } else { Err(refusal) }
}
