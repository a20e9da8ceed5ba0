//! The command same.

ghost use Rattle.std.specs.Prelude.{◌≡◌, true, IfOk, Some};
ghost use Rattle.reply.specs.Replies.{shown};
ghost use Rattle.text_replies.specs.Compared.{files_compared, refused_in, sameness, sameness_by};

use listing::refusal::Refusal;
use reply::named::Named;
use reply::reply::Reply;
use sentences::page::refusal_page;
use std::alloc::{AllocError, Global};
use tasks::sameness::{SameError, have_same_listing};

/// Tells which file is no executable, and why.
fn refuse_in(heap: Global, name: &str, refusal: Refusal) -> Result<Reply, AllocError>
    ensures { IfOk result (λ r. shown r ≡ refused_in name.now refusal) }
{
    let page = refusal_page(heap, refusal.number())?;
    let page = format!(in heap; "{page}in {name}\n")?;
    Ok(Reply {
        page: page.into_bytes(),
        done: false,
    })
}

/// Tells whether two executables are the same.
fn tell_same(heap: Global, same: bool) -> Result<Reply, AllocError>
    ensures { IfOk result (λ r. shown r ≡ sameness same) }
{
    let page = if same {
        Vec::from_slice(heap, b"same\n")?
    } else {
        Vec::from_slice(heap, b"different\n")?
    };
    Ok(Reply { page, done: same })
}

/// Tells whether two executables are the same, or which file is none.
fn tell(
    heap: Global,
    first: &str,
    second: &str,
    compared: Result<bool, SameError>,
) -> Result<Reply, AllocError>
    ensures { IfOk result (λ r. Some (shown r) ≡ sameness_by first.now second.now compared) }
{
    match compared {
        Ok(same) => tell_same(heap, same),
        Err(SameError::Left(refusal)) => refuse_in(heap, first, refusal),
        Err(SameError::Right(refusal)) => refuse_in(heap, second, refusal),
        Err(SameError::Memory) => Err(AllocError),
    }
}

/// Compares two executables by their listings. They are told to be the same only where their bytes are equal.
pub fn compare(heap: Global, first: Named<'_>, second: Named<'_>) -> Result<Reply, AllocError>
    ensures told { IfOk result (λ r. Some (shown r) ≡ files_compared first.entry second.entry) }
    ensures same { IfOk result (λ r. r.done ≡ true → first.entry.bytes.now ≡ second.entry.bytes.now) }
{
    let compared = have_same_listing(heap, first.bytes, second.bytes);
    tell(heap, first.name, second.name, compared)
}
