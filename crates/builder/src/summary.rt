//! What an executable holds.

/// The numbers of an executable that a text was assembled to.
#[derive(Clone, Copy)]
pub struct Summary {
    /// Its length in bytes.
    pub length: usize,
    /// How many code words it has.
    pub code: usize,
    /// How many constant words it has.
    pub constants: usize,
    /// The address of the first instruction.
    pub first: u32,
    /// The initial stack pointer.
    pub stack: u32,
}
