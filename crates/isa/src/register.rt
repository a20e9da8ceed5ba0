//! The sixteen registers.

ghost use Rattle.std.specs.Prelude.{◌≡◌, ◌<◌};
ghost use Rattle.std.specs.Option.{option_map};
ghost use Rattle.isa.specs.Ranges.{below};

/// One of r0 to r15.
#[derive(Clone, Copy)]
pub struct Register {
    pub number: u8,
    ghost few: { number < 16 },
}

impl Register {
    /// The register with a number, or none for a number above 15.
    pub fn new(number: u8) -> Option<Register>
        ensures { option_map (λ q. q.number) result ≡ below 16 number }
    {
        if number < 16 {
            Some(Register { number })
        } else {
            None
        }
    }
}
