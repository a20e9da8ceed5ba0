//! The parts of an accepted executable.

/// What an accepted executable holds; code and constants are parts of the checked bytes.
#[derive(Clone, Copy)]
pub struct Executable<'a> {
    /// The bytes of the code words.
    pub code: &'a [u8],
    /// The bytes of the constants.
    pub constants: &'a [u8],
    /// The address of the first instruction.
    pub first: u32,
    /// The initial stack pointer.
    pub stack: u32,
}
