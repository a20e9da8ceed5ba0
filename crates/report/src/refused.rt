//! The line of a refusal.

ghost use Rattle.std.specs.Prelude.{◌≡◌, IfOk, string_bytes};
ghost use Rattle.report.specs.Lines.{refusal_line};

use crate::meaning::meaning;
use assembler::question::Refusal;
use std::alloc::{AllocError, Global};

/// The line that tells a refusal: the question's number, the line of the text (0 for the whole text) and the meaning.
pub fn refusal_line(heap: Global, refusal: Refusal) -> Result<String, AllocError>
    ensures { IfOk result (λ s. string_bytes s ≡ refusal_line refusal) }
{
    let number = refusal.question.number();
    let line = refusal.origin.line;
    let meaning = meaning(refusal.question);
    format!(in heap; "refused {number} line {line}: {meaning}\n")
}
