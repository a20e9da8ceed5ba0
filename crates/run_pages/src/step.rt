//! A step that was taken.

/// Which step it was, where its word stood, and what the registers and the flags held before and after it.
#[derive(Clone, Copy)]
pub struct Step {
    pub number: u64,
    pub address: u32,
    pub word: u32,
    pub before: [u32; 16],
    pub after: [u32; 16],
    pub flags_before: u8,
    pub flags_after: u8,
}
