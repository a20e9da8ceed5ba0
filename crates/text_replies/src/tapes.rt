//! The commands tape show and tape make.

ghost use Rattle.std.specs.Prelude.{◌≡◌, IfOk, Some};
ghost use Rattle.reply.specs.Replies.{shown};
ghost use Rattle.text_replies.specs.Taped.{Tells, bad_line_page, shown_taping, tape_shown, taping_by};

use item_lines::make::{MakeError, make_tape};
use item_lines::show::show_tape;
use reply::named::Named;
use reply::refusal::refuse;
use reply::reply::Reply;
use std::alloc::{AllocError, Global};

/// Tells the items on a tape, and where it is spoiled, if it is.
pub fn show(heap: Global, tape: &[u8]) -> Result<Reply, AllocError>
    ensures { IfOk result (λ r. shown r ≡ tape_shown tape.now) }
{
    Ok(Reply {
        page: show_tape(heap, tape)?,
        done: true,
    })
}

/// What making a tape tells and makes.
#[derive(Drop)]
pub struct Taping {
    pub reply: Reply,
    /// The bytes of the tape, if one is made.
    pub tape: Option<Vec<u8>>,
}

/// The lines that tell which line of a text with a name is no item's.
fn bad_line_page(heap: Global, name: &str, line: usize) -> Result<Vec<u8>, AllocError>
    ensures { IfOk result (λ page. page.items ≡ bad_line_page name.now line) }
{
    let page = format!(in heap;
        "refused line {line}\nit is no item's line in {name}; karma help tape tells how items are written\n"
    )?;
    Ok(page.into_bytes())
}

/// Tells of a tape that is made, or why none is.
fn tell(heap: Global, name: &str, made: Result<Vec<u8>, MakeError>) -> Result<Taping, AllocError>
    ensures { IfOk result (λ t. Some (shown_taping t) ≡ taping_by name.now made) }
{
    match made {
        Ok(tape) => Ok(Taping {
            reply: Reply {
                page: Vec::new(heap),
                done: true,
            },
            tape: Some(tape),
        }),
        Err(MakeError::Line(line)) => Ok(Taping {
            reply: Reply {
                page: bad_line_page(heap, name, line)?,
                done: false,
            },
            tape: None,
        }),
        Err(MakeError::TooMany) => Ok(Taping {
            reply: refuse(heap, 46)?,
            tape: None,
        }),
        Err(MakeError::Memory) => Err(AllocError),
    }
}

/// Makes a tape of a text of items' lines.
pub fn make(heap: Global, text: Named<'_>) -> Result<Taping, AllocError>
    ensures { IfOk result (λ t. Tells text.entry.name.now text.entry.bytes.now t) }
{
    let made = make_tape(heap, text.bytes);
    tell(heap, text.name, made)
}
