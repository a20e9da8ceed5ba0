//! Checking a filed listing against its executable.

ghost use Rattle.std.specs.Prelude.{◌≡◌, IfOk, is_ok, length, option_map};
ghost use Rattle.tasks.specs.Checking.{Checks, after_listing};
ghost use Rattle.tasks.specs.Difference.{first_difference, shown};
ghost use Rattle.tasks.specs.Listing.{listed_whole};
ghost use Rattle.tasks.specs.declared.checking.CheckError.TheVariants.{Memory};

use crate::difference::{Difference, first_difference};
use crate::listing_page::{LONGEST_LISTING, ListError, list_page, new_page};
use listing::refusal::Refusal;
use roundtrip::rebuild::rebuild;
use std::alloc::{AllocError, Global};

/// Why a listing is not checked.
#[derive(Clone, Copy)]
pub enum CheckError {
    /// 20 to 26: the bytes are no executable.
    Refused(Refusal),
    /// There is no memory.
    Memory,
}

impl From<ListError> for CheckError {
    ghost from_gives = { λ cause error. error ≡ after_listing cause };

    fn from(cause: ListError) -> CheckError {
        match cause {
            ListError::Refused(refusal) => CheckError::Refused(refusal),
            ListError::Memory => CheckError::Memory,
        }
    }
}

impl From<AllocError> for CheckError {
    ghost from_gives = { λ _ error. error ≡ Memory };

    fn from(_: AllocError) -> CheckError {
        CheckError::Memory
    }
}

/// What a check finds.
#[derive(Drop)]
pub struct Checked {
    /// The listing of the executable.
    pub page: Vec<u8>,
    /// Whether the executable is assembled from its listing: it always is.
    pub back: bool,
    /// Whether the filed listing is that listing.
    pub same: bool,
}

impl Checked {
    /// The first line in which the listing of the executable (left) and a filed listing (right) differ.
    pub fn difference<'a>(&'a self, listing: &'a [u8]) -> Option<Difference<'a>>
        ensures { option_map shown result ≡ first_difference self.now.page.items listing.now }
    {
        first_difference(self.page.as_slice(), listing)
    }
}

/// Whether the listing of an executable, written into `text`, is assembled into `out` as that executable.
fn is_rebuilt(executable: &[u8], text: &mut [u8], out: &mut [u8]) -> bool
    requires text { length text.old ≡ LONGEST_LISTING }
    requires out { length out.old ≡ length executable.now }
    ensures { result ≡ is_ok (listed_whole executable.now) }
{
    match rebuild(executable, text, out) {
        Ok(_) => *out == *executable,
        Err(_) => false,
    }
}

/// Whether an executable is assembled from its listing. An accepted one always is.
fn comes_back(heap: Global, executable: &[u8]) -> Result<bool, AllocError>
    ensures { IfOk result (λ back. back ≡ is_ok (listed_whole executable.now)) }
{
    let mut text = new_page(heap)?;
    let mut out = vec![in heap; 0u8; executable.len()]?;
    Ok(is_rebuilt(executable, text.as_mut_slice(), out.as_mut_slice()))
}

/// Lists an executable, assembles the listing again, and compares a filed listing with the listing.
pub fn check_listing(heap: Global, executable: &[u8], listing: &[u8]) -> Result<Checked, CheckError>
    ensures { Checks executable.now listing.now result }
{
    let page = list_page(heap, executable)?;
    let back = comes_back(heap, executable)?;
    let same = page.as_slice() == listing;
    Ok(Checked { page, back, same })
}
