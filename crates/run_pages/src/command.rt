//! Commands as text.

ghost use Rattle.std.specs.Prelude.{◌≡◌, IfOk};
ghost use Rattle.run_pages.specs.Commands.{command_text};

use executable::segment::Segment;
use listing::word_text::word_text;
use std::alloc::{AllocError, Global};

/// The text of the command that a word is, as a listing has it.
#[tactic(auto, unfolding(crate::specs::Commands::command_text))]
pub(crate) fn command_text(heap: Global, word: u32) -> Result<Vec<u8>, AllocError>
    ensures { IfOk result (λ text. text.items ≡ command_text word) }
{
    word_text(heap, Segment::Code, word)
}
