//! Replies that tell a refusal by its number.

ghost use Rattle.std.specs.Prelude.{◌≡◌, IfOk};
ghost use Rattle.reply.specs.Replies.{refused, refused_at, shown};

use crate::reply::Reply;
use sentences::page::{line_refusal_page, refusal_page};
use std::alloc::{AllocError, Global};

/// The reply to a refusal.
pub fn refuse(heap: Global, number: u8) -> Result<Reply, AllocError>
    ensures { IfOk result (λ r. shown r ≡ refused number) }
{
    Ok(Reply {
        page: refusal_page(heap, number)?.into_bytes(),
        done: false,
    })
}

/// The reply to a refusal that a line of a text caused; 0 stands for the whole text.
pub fn refuse_at(heap: Global, number: u8, line: usize) -> Result<Reply, AllocError>
    ensures { IfOk result (λ r. shown r ≡ refused_at number line) }
{
    Ok(Reply {
        page: line_refusal_page(heap, number, line)?.into_bytes(),
        done: false,
    })
}
