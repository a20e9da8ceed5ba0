//! The lines of an executable that was made.

ghost use Rattle.std.specs.Prelude.{◌≡◌, IfOk, string_bytes};
ghost use Rattle.report.specs.Lines.{number_lines, success_lines};

use crate::label::push_label;
use assembler::label::Label;
use builder::summary::Summary;
use std::alloc::{AllocError, Global};

/// The lines of an executable's numbers.
fn number_lines(heap: Global, summary: Summary) -> Result<String, AllocError>
    ensures { IfOk result (λ s. string_bytes s ≡ number_lines summary) }
{
    let Summary {
        code,
        constants,
        first,
        stack,
        ..
    } = summary;
    format!(in heap;
        "words of code: {code}\nwords of constants: {constants}\nfirst instruction: {first}\nstack pointer: {stack}\n"
    )
}

/// The lines that tell of an executable and of the labels of the text that it was made from.
pub fn success_lines(
    heap: Global,
    text: &[u8],
    labels: &[Label],
    summary: Summary,
) -> Result<Vec<u8>, AllocError>
    ensures { IfOk result (λ v. v.items ≡ success_lines summary text.now labels.now) }
{
    let numbers = number_lines(heap, summary)?;
    let mut page = Vec::from_slice(heap, numbers.as_bytes())?;
    for label in labels {
        push_label(&mut page, heap, text, *label)?;
    }
    Ok(page)
}
