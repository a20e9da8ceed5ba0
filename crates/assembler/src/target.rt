//! What an instruction's address is given by.

ghost use Rattle.std.specs.Prelude.{◌≡◌};
ghost use Rattle.std.specs.Option.{option_map};
ghost use Rattle.assembler.specs.Reading.{aimed};

use isa::address::Address;

/// An address, or a label that stands for one.
#[derive(Clone, Copy)]
pub(crate) enum Target<'a> {
    Address(Address),
    Label(&'a [u8]),
}

impl<'a> Target<'a> {
    /// The address, and 0 where a label stands for it.
    pub(crate) fn address(self) -> Address
        ensures { result.value ≡ (aimed self.entry).0 }
    {
        match self {
            Target::Address(address) => address,
            Target::Label(_) => Address { value: 0 },
        }
    }

    /// The label, if one stands for the address.
    pub(crate) fn label(self) -> Option<&'a [u8]>
        ensures { option_map (λ x. x.now) result ≡ (aimed self.entry).1 }
    {
        match self {
            Target::Address(_) => None,
            Target::Label(label) => Some(label),
        }
    }
}
