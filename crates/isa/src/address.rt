//! Addresses of memory cells.

ghost use Rattle.std.specs.Prelude.{◌≡◌, ◌<◌};
ghost use Rattle.std.specs.Option.{option_map};
ghost use Rattle.isa.specs.Ranges.{below};

/// The number of a cell, of 20 bits.
#[derive(Clone, Copy)]
pub struct Address {
    pub value: u32,
    ghost few: { value < 1048576 },
}

impl Address {
    /// The address with a value, or none for a value above 1,048,575.
    pub fn new(value: u32) -> Option<Address>
        ensures { option_map (λ a. a.value) result ≡ below 1048576 value }
    {
        if value < 1_048_576 {
            Some(Address { value })
        } else {
            None
        }
    }
}
