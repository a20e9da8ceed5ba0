//! The command list.

ghost use Rattle.std.specs.Prelude.{◌≡◌, IfOk};
ghost use Rattle.reply.specs.Replies.{shown};
ghost use Rattle.text_replies.specs.Listed.{listed};

use reply::refusal::refuse;
use reply::reply::Reply;
use std::alloc::{AllocError, Global};
use tasks::listing_page::{ListError, list_page};

/// Tells the listing of an executable, or why it has none.
pub fn list(heap: Global, executable: &[u8]) -> Result<Reply, AllocError>
    ensures { IfOk result (λ r. shown r ≡ listed executable.now) }
{
    match list_page(heap, executable) {
        Ok(page) => Ok(Reply { page, done: true }),
        Err(ListError::Refused(refusal)) => refuse(heap, refusal.number()),
        Err(ListError::Memory) => Err(AllocError),
    }
}
