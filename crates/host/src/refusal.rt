//! Why a host refuses.

ghost use Rattle.std.specs.Prelude.{◌≡◌};
ghost use Rattle.host.specs.Numbers.{number_of};

/// The question about getting or writing an item that gets a no first.
#[derive(Clone, Copy, PartialEq, Eq)]
pub enum Refusal {
    /// 42: is anything left of the input, an item or a spoiled end?
    NothingWaits = 42,
    /// 43: does the rest of the input begin with an item?
    SpoiledEnd = 43,
    /// 44: has the next item the kind that is asked for?
    OtherKind = 44,
    /// 45: may one more item be written?
    NoWriteLeft = 45,
}

impl Refusal {
    /// The number by which the refusal is reported.
    pub fn number(self) -> u8
        ensures { result ≡ number_of self }
    {
        self as u8
    }
}
