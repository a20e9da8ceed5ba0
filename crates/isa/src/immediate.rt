//! Signed operands of 20 bits.

ghost use Rattle.std.specs.Prelude.{◌≡◌, ◌<◌};
ghost use Rattle.std.specs.Int.Signed.{mag};
ghost use Rattle.std.specs.Option.{option_map};
ghost use Rattle.isa.specs.Ranges.{in_bits};

/// A number from -524,288 to 524,287. (`mag` is n both of n and of -n - 1.)
#[derive(Clone, Copy)]
pub struct Immediate {
    pub value: i32,
    ghost fits: { mag value < 524288 },
}

impl Immediate {
    /// The immediate with a value, or none for a value that 20 bits do not hold.
    pub fn new(value: i32) -> Option<Immediate>
        ensures { option_map (λ i. i.value) result ≡ in_bits 20 value }
    {
        if (-524_288..=524_287).contains(&value) {
            Some(Immediate { value })
        } else {
            None
        }
    }
}
