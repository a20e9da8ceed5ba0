//! Why an executable is not rebuilt.

ghost use Rattle.std.specs.Prelude.{◌≡◌};
ghost use Rattle.roundtrip.specs.Rebuilt.{number_of};
ghost use Rattle.roundtrip.specs.declared.refusal.Refusal.TheVariants.{Listing};

/// The question about rebuilding that gets a no first.
#[derive(Clone, Copy)]
pub enum Refusal {
    /// 20 to 27: the bytes are not listed.
    Listing(listing::refusal::Refusal),
    /// 13: does the executable fit into the output?
    OutputTooShort,
}

impl Refusal {
    /// The number by which the refusal is reported.
    pub fn number(self) -> u8
        ensures { result ≡ number_of self }
    {
        match self {
            Refusal::Listing(refusal) => refusal.number(),
            Refusal::OutputTooShort => 13,
        }
    }
}

impl From<listing::refusal::Refusal> for Refusal {
    ghost from_gives = { λ q r. r ≡ Listing q };

    fn from(cause: listing::refusal::Refusal) -> Refusal {
        Refusal::Listing(cause)
    }
}
