//! Whether two executables have the same listing.

ghost use Rattle.std.specs.Prelude.{◌≡◌, Decides, IfOk, length};
ghost use Rattle.tasks.specs.Sameness.{Compares, refused_by};
ghost use Rattle.tasks.specs.Listing.{listed_whole};
ghost use Rattle.executable.specs.Check.{checked};
ghost use Rattle.tasks.specs.declared.sameness.SameError.TheVariants.{Memory};

use crate::listing_page::{LONGEST_LISTING, new_page};
use executable::check::check;
use listing::refusal::Refusal;
use roundtrip::compare::have_equal_listings;
use std::alloc::{AllocError, Global};

/// Why two executables are not compared.
#[derive(Clone, Copy)]
pub enum SameError {
    /// 20 to 26: the left is no executable.
    Left(Refusal),
    /// 20 to 26: the left is an executable, and the right is none.
    Right(Refusal),
    /// There is no memory.
    Memory,
}

impl From<AllocError> for SameError {
    ghost from_gives = { λ _ error. error ≡ Memory };

    fn from(_: AllocError) -> SameError {
        SameError::Memory
    }
}

/// The error of a refusal: the left's where the left is refused, and else the right's.
fn refused_by(left: &[u8], refusal: Refusal) -> SameError
    ensures { result ≡ refused_by (checked left.now) refusal }
{
    match check(left) {
        Ok(_) => SameError::Right(refusal),
        Err(_) => SameError::Left(refusal),
    }
}

/// Compares two executables by their listings, over two pages with room for every listing.
fn compare_on(
    left: &[u8],
    right: &[u8],
    text: &mut [u8],
    other: &mut [u8],
) -> Result<bool, SameError>
    requires text { length text.old ≡ LONGEST_LISTING }
    requires other { length other.old ≡ LONGEST_LISTING }
    ensures answer { Compares left.now right.now result }
    ensures listings { IfOk result (λ same. Decides same (listed_whole left.now ≡ listed_whole right.now)) }
    ensures same { IfOk result (λ same. Decides same (left.now ≡ right.now)) }
{
    match have_equal_listings(left, right, text, other) {
        Ok(same) => Ok(same),
        Err(refusal) => Err(refused_by(left, refusal)),
    }
}

/// Whether two executables have the same listing: they do exactly where they are equal. The first that is refused is told.
pub fn have_same_listing(heap: Global, left: &[u8], right: &[u8]) -> Result<bool, SameError>
    ensures answer { Compares left.now right.now result }
    ensures listings { IfOk result (λ same. Decides same (listed_whole left.now ≡ listed_whole right.now)) }
    ensures same { IfOk result (λ same. Decides same (left.now ≡ right.now)) }
{
    let mut text = new_page(heap)?;
    let mut other = new_page(heap)?;
    compare_on(left, right, text.as_mut_slice(), other.as_mut_slice())
}
