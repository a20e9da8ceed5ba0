//! The page that tells a refusal.

ghost use Rattle.std.specs.Prelude.{◌≡◌, IfOk, string_bytes};
ghost use Rattle.sentences.specs.Pages.{no_line, refusal_page, line_refusal_page};

use crate::question::question_of;
use std::alloc::{AllocError, Global};

/// The line that tells which question got a no.
pub fn no_line(heap: Global, number: u8) -> Result<String, AllocError>
    ensures { IfOk result (λ s. string_bytes s ≡ no_line number) }
{
    let sentence = question_of(number);
    format!(in heap; "question {number} got a no: {sentence}\n")
}

/// The page of a refusal.
pub fn refusal_page(heap: Global, number: u8) -> Result<String, AllocError>
    ensures { IfOk result (λ s. string_bytes s ≡ refusal_page number) }
{
    let no = no_line(heap, number)?;
    format!(in heap; "refused {number}\n{no}")
}

/// The page of a refusal that a line of a text caused; 0 stands for the whole text.
pub fn line_refusal_page(heap: Global, number: u8, line: usize) -> Result<String, AllocError>
    ensures { IfOk result (λ s. string_bytes s ≡ line_refusal_page number line) }
{
    let no = no_line(heap, number)?;
    format!(in heap; "refused {number} line {line}\n{no}")
}
