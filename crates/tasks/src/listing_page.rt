//! The listing of an executable.

ghost use Rattle.std.specs.Prelude.{◌≡◌, IfErr, IfOk, length, take, vec_len};
ghost use Rattle.tasks.specs.Listing.{Lists, listed_whole};
ghost use Rattle.tasks.specs.declared.listing_page.ListError.TheVariants.{Refused, Memory};

use listing::list::list;
use listing::refusal::Refusal;
use std::alloc::{AllocError, Global};

/// No listing has more bytes.
pub(crate) const LONGEST_LISTING: usize = 2_031_678;

/// Why an executable is not listed.
#[derive(Clone, Copy)]
pub enum ListError {
    /// 20 to 26: the bytes are no executable.
    Refused(Refusal),
    /// There is no memory.
    Memory,
}

impl From<Refusal> for ListError {
    ghost from_gives = { λ refusal error. error ≡ Refused refusal };

    fn from(refusal: Refusal) -> ListError {
        ListError::Refused(refusal)
    }
}

impl From<AllocError> for ListError {
    ghost from_gives = { λ _ error. error ≡ Memory };

    fn from(_: AllocError) -> ListError {
        ListError::Memory
    }
}

/// A page with room for every listing.
pub(crate) fn new_page(heap: Global) -> Result<Vec<u8>, AllocError>
    ensures { IfOk result (λ page. vec_len page ≡ LONGEST_LISTING) }
{
    vec![in heap; 0u8; LONGEST_LISTING]
}

/// Lists an executable onto a page with room for every listing, and answers how long the listing is.
fn list_onto(executable: &[u8], page: &mut [u8]) -> Result<usize, Refusal>
    requires { length page.old ≡ LONGEST_LISTING }
    ensures listed { IfOk result (λ n. listed_whole executable.now ≡ Ok (take n page.new)) }
    ensures refused { IfErr result (λ q. listed_whole executable.now ≡ Err q) }
{
    list(executable, page)
}

/// The listing of an executable of any length. No listing is too long, so 27 never comes.
pub fn list_page(heap: Global, executable: &[u8]) -> Result<Vec<u8>, ListError>
    ensures { Lists executable.now result }
{
    let mut page = new_page(heap)?;
    let length = list_onto(executable, page.as_mut_slice())?;
    page.truncate(length);
    Ok(page)
}
