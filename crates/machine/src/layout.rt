//! Where the parts of a program are in memory.

/// How many words of code stand from cell 0 on and how many words of constants after them, and the stack pointer that
/// the program begins with.
#[derive(Clone, Copy)]
pub struct Layout {
    pub code: u32,
    pub constants: u32,
    pub stack: u32,
}
