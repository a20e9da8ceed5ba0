//! All questions, for a reader who looks a number up.

ghost use Rattle.std.specs.Prelude.{◌≡◌, IfOk, string_bytes};
ghost use Rattle.sentences.specs.Pages.{question_line, all_questions};

use crate::question::{Row, question_of, rows};
use std::alloc::{AllocError, Global};

/// The line of a question.
fn question_line(heap: Global, number: u8) -> Result<String, AllocError>
    ensures { IfOk result (λ s. string_bytes s ≡ question_line number) }
{
    let sentence = question_of(number);
    format!(in heap; "{number} {sentence}\n")
}

/// The lines of all questions, by rising numbers.
pub fn all_questions(heap: Global) -> Result<String, AllocError>
    ensures { IfOk result (λ page. string_bytes page ≡ all_questions) }
{
    let mut page = String::new(heap);
    for Row(number, _) in rows() {
        let line = question_line(heap, *number)?;
        page.push_str(line.as_str())?;
    }
    Ok(page)
}
