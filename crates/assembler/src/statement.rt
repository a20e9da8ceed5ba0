//! What a line says.

/// A command, constant or directive with its operands.
#[derive(Clone, Copy)]
pub enum Statement<'a> {
    /// A code word.
    Code(u32),
    /// A code word to which the address of a label is to be added.
    Labelled { word: u32, label: &'a [u8] },
    /// A constant word.
    Constant(u32),
    /// A string, in its quotes. It gives as many constant words as it has characters, and one more, which is 0.
    Text(&'a [u8]),
    /// The initial stack pointer.
    Stack(u32),
    /// The first instruction, by its address.
    End(u32),
    /// The first instruction, by a label.
    EndAt(&'a [u8]),
}
