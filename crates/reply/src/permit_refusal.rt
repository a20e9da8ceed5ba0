//! The reply where a permit file is not read.

ghost use Rattle.std.specs.Prelude.{◌≡◌, IfOk, string_bytes};
ghost use Rattle.permit_text.specs.Errors.{line_of, number_of};
ghost use Rattle.reply.specs.Permits.{permit_page, refused_permit};
ghost use Rattle.reply.specs.Replies.{shown};

use crate::reply::Reply;
use permit_text::error::PermitError;
use sentences::page::line_refusal_page;
use std::alloc::{AllocError, Global};

/// The lines that tell which line is refused, and by which number, if it has one.
fn permit_page(
    heap: Global,
    name: &str,
    line: usize,
    number: Option<u8>,
) -> Result<String, AllocError>
    ensures { IfOk result (λ page. string_bytes page ≡ permit_page name.now line number) }
{
    match number {
        Some(number) => {
            let page = line_refusal_page(heap, number, line)?;
            format!(in heap; "{page}in the permit {name}\n")
        }
        None => {
            format!(in heap;
                "refused line {line}\nno setting stands there in the permit {name}; karma help run tells the settings\n"
            )
        }
    }
}

/// The reply where a permit file with a name is not read.
pub fn refuse_permit(heap: Global, name: &str, error: PermitError) -> Result<Reply, AllocError>
    ensures { IfOk result (λ r. shown r ≡ refused_permit name.now error) }
{
    let page = permit_page(heap, name, error.line(), error.number())?;
    Ok(Reply {
        page: page.into_bytes(),
        done: false,
    })
}
