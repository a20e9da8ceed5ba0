//! A machine that was loaded.

ghost use Rattle.std.specs.Prelude.{◌≤◌};

use machine::layout::Layout;
use machine::processor::Processor;

mod asking;
pub mod both;
pub mod calls;
pub(crate) mod comparing;
mod parts;
mod running;

/// A processor, where the parts of its program are, how many cells its memory had at loading, and whether its program has
/// exited. The memory stays with the caller, who hands it to each call.
#[derive(Clone, Copy)]
pub struct Machine {
    processor: Processor,
    layout: Layout,
    size: usize,
    exited: bool,
    ghost large: { 1024 ≤ size },
}
