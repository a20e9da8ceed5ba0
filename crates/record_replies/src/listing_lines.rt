//! The lines that tell of a filed listing.

ghost use Rattle.std.specs.Prelude.{◌≡◌, IfOk, option_map};
ghost use Rattle.record_replies.specs.Listings.{differing, listing_lines, side_lines, sides};
ghost use Rattle.tasks.specs.Difference.{shown};
ghost use Rattle.tasks.specs.Listing.{listed_whole};

use record::finding::Finding;
use reply::line::named_line;
use std::alloc::{AllocError, Global};
use tasks::difference::{Difference, first_difference};
use tasks::listing_page::{ListError, list_page};

/// Both sides of a difference, if there is one.
fn side_lines(heap: Global, difference: Option<Difference<'_>>) -> Result<Vec<u8>, AllocError>
    ensures { IfOk result (λ lines. lines.items ≡ side_lines (option_map shown difference.entry)) }
{
    let Some(difference) = difference else {
        return Ok(Vec::new(heap));
    };
    let mut lines = named_line(heap, "  the program lists as", difference.left)?;
    let filed = named_line(heap, "  the filed listing has", difference.right)?;
    lines.extend_from_slice(filed.as_slice())?;
    Ok(lines)
}

/// Both sides of the first difference between the listing of an executable and a filed one.
fn sides(heap: Global, executable: &[u8], filed: &[u8]) -> Result<Vec<u8>, AllocError>
    ensures { IfOk result (λ lines. lines.items ≡ sides filed.now (listed_whole executable.now)) }
{
    match list_page(heap, executable) {
        Ok(page) => side_lines(heap, first_difference(page.as_slice(), filed)),
        Err(ListError::Refused(_)) => Ok(Vec::new(heap)),
        Err(ListError::Memory) => Err(AllocError),
    }
}

/// The lines of a listing that differs from a line on.
fn differing(
    heap: Global,
    at: usize,
    executable: &[u8],
    filed: &[u8],
) -> Result<Vec<u8>, AllocError>
    ensures { IfOk result (λ lines. lines.items ≡ differing executable.now filed.now at) }
{
    let sides = sides(heap, executable, filed)?;
    let mut lines = format!(in heap; "listing: differs at line {at}\n")?.into_bytes();
    lines.extend_from_slice(sides.as_slice())?;
    Ok(lines)
}

/// The lines that tell what was found of the filed listing of an executable.
pub(crate) fn listing_lines(
    heap: Global,
    finding: Finding,
    executable: &[u8],
    filed: &[u8],
) -> Result<Vec<u8>, AllocError>
    ensures { IfOk result (λ lines. lines.items ≡ listing_lines executable.now filed.now finding) }
{
    match finding {
        Finding::Agrees => Vec::from_slice(heap, b"listing: agrees\n"),
        Finding::Differs { at } => differing(heap, at, executable, filed),
    }
}
