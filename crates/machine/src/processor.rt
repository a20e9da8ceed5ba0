//! The processor's state.

use crate::flags::Flags;

pub mod calls;

/// Registers r0 to r15, and the flags.
#[derive(Clone, Copy)]
pub struct Processor {
    registers: [u32; 16],
    flags: Flags,
}
