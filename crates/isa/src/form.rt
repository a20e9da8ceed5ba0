//! The forms of a command's operands.

/// Which operands a command has, in their order.
#[derive(Clone, Copy, PartialEq, Eq)]
pub enum Form {
    /// Receiver register, source register, signed modifier.
    Rr,
    /// Register, signed immediate.
    Ri,
    /// Register, address.
    Rm,
    /// Address.
    J,
}
