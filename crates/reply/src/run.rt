//! The reply where a program is not run.

ghost use Rattle.std.specs.Prelude.{◌≡◌, IfOk, Some, option_map};
ghost use Rattle.play.specs.Numbers.{number_of};
ghost use Rattle.reply.specs.Replies.{refused, shown};

use crate::refusal::refuse;
use crate::reply::Reply;
use play::refusal::Refusal;
use std::alloc::{AllocError, Global};

/// The reply where a program is not run; want of memory has no number.
pub fn refuse_run(heap: Global, refusal: Refusal) -> Result<Reply, AllocError>
    ensures { IfOk result (λ r. Some (shown r) ≡ option_map refused (number_of refusal)) }
{
    match refusal.number() {
        Some(number) => refuse(heap, number),
        None => Err(AllocError),
    }
}
