//! What is found of a file of a record.

ghost use Rattle.std.specs.Prelude.{◌≡◌, IfOk};
ghost use Rattle.record.specs.Findings.{texts_found, tapes_found};

use play::play::count_items;
use std::alloc::{AllocError, Global};
use tasks::difference::{common_len, first_difference};

/// Whether a filed file is what it should be.
#[derive(Clone, Copy, PartialEq, Eq)]
pub enum Finding {
    Agrees,
    /// It differs from a line of a text or an item of a tape on, counted from 1.
    Differs { at: usize },
}

/// Two texts, line by line.
pub fn compare_texts(left: &[u8], right: &[u8]) -> Finding
    ensures { result ≡ texts_found left.now right.now }
{
    match first_difference(left, right) {
        None => Finding::Agrees,
        Some(difference) => Finding::Differs {
            at: difference.line,
        },
    }
}

/// Two tapes, item by item.
pub fn compare_tapes(heap: Global, left: &[u8], right: &[u8]) -> Result<Finding, AllocError>
    ensures { IfOk result (λ f. f ≡ tapes_found left.now right.now) }
{
    if left == right {
        return Ok(Finding::Agrees);
    }
    let front = &left[..common_len(left, right)];
    let same = count_items(heap, front)?;
    Ok(Finding::Differs { at: same + 1 })
}
