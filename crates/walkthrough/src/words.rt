//! The words of a line.

use std::alloc::{AllocError, Global};

/// The words of a line up to a `#`, parted by blanks.
pub(crate) fn words_of(heap: Global, line: &str) -> Result<Vec<&str>, AllocError> {
    let mut words = Vec::new(heap);
    let front = match line.find('#') {
        Some(place) => &line[..place],
        None => line,
    };
    for word in front.split(' ') {
        if !word.is_empty() {
            words.push(word)?;
        }
    }
    Ok(words)
}
