//! Why an executable is not listed.

ghost use Rattle.std.specs.Prelude.{◌≡◌};
ghost use Rattle.listing.specs.Numbers.{number_of};
ghost use Rattle.listing.specs.declared.refusal.Refusal.TheVariants.{Executable};

/// The question about a listing that gets a no first.
#[derive(Clone, Copy)]
pub enum Refusal {
    /// 20 to 26: the bytes are no executable.
    Executable(executable::refusal::Refusal),
    /// 27: does the listing fit into the output?
    OutputTooShort,
}

impl Refusal {
    /// The number by which the refusal is reported.
    pub fn number(self) -> u8
        ensures { result ≡ number_of self }
    {
        match self {
            Refusal::Executable(refusal) => refusal.number(),
            Refusal::OutputTooShort => 27,
        }
    }
}

impl From<executable::refusal::Refusal> for Refusal {
    ghost from_gives = { λ q r. r ≡ Executable q };

    fn from(cause: executable::refusal::Refusal) -> Refusal {
        Refusal::Executable(cause)
    }
}
