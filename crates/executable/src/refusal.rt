//! Why bytes are no executable.

ghost use Rattle.std.specs.Prelude.{◌≡◌};
ghost use Rattle.executable.specs.Numbers.{number_of};

/// The question about an executable that gets a no first.
#[derive(Clone, Copy)]
pub enum Refusal {
    /// Does a whole header stand there, 512 bytes?
    TooShort = 20,
    /// Do the first 16 bytes spell the mark?
    NoMark = 21,
    /// Is it made for processor 239?
    OtherProcessor = 22,
    /// Is the filler, bytes 36 to 511, all zero?
    FillerNotZero = 23,
    /// Do both sizes count whole words, 65,536 at most in all?
    BadSizes = 24,
    /// Is every byte accounted for by header and sizes?
    OtherLength = 25,
    /// Are both addresses below 1,048,576?
    AddressTooLarge = 26,
}

impl Refusal {
    /// The number by which the refusal is reported.
    pub fn number(self) -> u8
        ensures { result ≡ number_of self }
    {
        self as u8
    }
}
