//! Telling executables apart by their listings.

ghost use Rattle.std.specs.Prelude.{◌≡◌, length};
ghost use Rattle.listing.specs.Listing.{listed, output_after};
ghost use Rattle.roundtrip.specs.Compared.{compared, second_after, TellsEqual};

use crate::page::front;
use listing::list::list;
use listing::refusal::Refusal;

/// Lists two executables into two outputs, and answers whether the listings are equal: so are then the executables, and
/// only then. The second is not listed where the first is refused.
pub fn have_equal_listings(
    left: &[u8],
    right: &[u8],
    text: &mut [u8],
    other: &mut [u8],
) -> Result<bool, Refusal>
    ensures value { result ≡ compared left.now right.now (length text.old) (length other.old) }
    ensures left { text.new ≡ output_after (listed left.now (length text.old)) text.old }
    ensures right { other.new ≡ second_after (listed left.now (length text.old)) (listed right.now (length other.old)) other.old }
    ensures equal { TellsEqual left.now right.now (length text.old) (length other.old) result }
{
    let length = list(left, text)?;
    let count = list(right, other)?;
    Ok(front(text, length) == front(other, count))
}
