//! The command check.

ghost use Rattle.std.specs.Prelude.{◌≡◌, true, IfOk, option_map};
ghost use Rattle.reply.specs.Replies.{shown};
ghost use Rattle.tasks.specs.Difference as differing;
ghost use Rattle.text_replies.specs.Checked.{agreement, checked, difference_page};

use reply::line::named_line;
use reply::refusal::refuse;
use reply::reply::Reply;
use std::alloc::{AllocError, Global};
use tasks::checking::{CheckError, Checked, check_listing};
use tasks::difference::Difference;

/// The lines that tell in which line two listings differ, and this line of both.
fn difference_page(heap: Global, difference: Difference<'_>) -> Result<Vec<u8>, AllocError>
    ensures { IfOk result (λ page. page.items ≡ difference_page (differing.shown difference.entry)) }
{
    let left = named_line(heap, "the executable lists as", difference.left)?;
    let right = named_line(heap, "the listing has", difference.right)?;
    let line = difference.line;
    let mut page = format!(in heap; "differs at line {line}\n")?.into_bytes();
    page.extend_from_slice(left.as_slice())?;
    page.extend_from_slice(right.as_slice())?;
    Ok(page)
}

/// Tells where a listing differs from that of an executable, if it does.
fn tell(heap: Global, found: Option<Difference<'_>>) -> Result<Reply, AllocError>
    ensures { IfOk result (λ r. shown r ≡ agreement (option_map differing.shown found.entry)) }
{
    match found {
        None => Ok(Reply {
            page: Vec::from_slice(heap, b"agrees\n")?,
            done: true,
        }),
        Some(difference) => Ok(Reply {
            page: difference_page(heap, difference)?,
            done: false,
        }),
    }
}

/// Tells what a check finds of a filed listing. That the executable is assembled from its listing counts as well, and is always so.
fn tell_checked(heap: Global, checked: &Checked, listing: &[u8]) -> Result<Reply, AllocError>
    requires { checked.now.back ≡ true }
    ensures { IfOk result (λ r. shown r ≡ agreement (differing.first_difference checked.now.page.items listing.now)) }
{
    let reply = tell(heap, checked.difference(listing))?;
    Ok(Reply {
        page: reply.page,
        done: reply.done && checked.back,
    })
}

/// Tells whether a text is the listing of an executable.
pub fn check(heap: Global, executable: &[u8], listing: &[u8]) -> Result<Reply, AllocError>
    ensures { IfOk result (λ r. shown r ≡ checked executable.now listing.now) }
{
    match check_listing(heap, executable, listing) {
        Ok(checked) => tell_checked(heap, &checked, listing),
        Err(CheckError::Refused(refusal)) => refuse(heap, refusal.number()),
        Err(CheckError::Memory) => Err(AllocError),
    }
}
