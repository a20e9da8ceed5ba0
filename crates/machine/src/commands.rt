//! The operations, by family. Each function finds r15 past the word. All questions come before the first effect, so that a
//! fault leaves registers, flags, cells and host as they are.

mod cells;
mod functions;
mod jumps;
mod operand;
mod reals;
mod stack;
mod system;
mod words;
