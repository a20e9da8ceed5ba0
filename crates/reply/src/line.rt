//! A line of a file, shown.

ghost use Rattle.std.specs.Prelude.{◌≡◌, IfOk};
ghost use Rattle.reply.specs.Replies.{named_line};

use std::alloc::{AllocError, Global};

/// A line with a name in front of it.
pub fn named_line(heap: Global, name: &str, line: &[u8]) -> Result<Vec<u8>, AllocError>
    ensures { IfOk result (λ text. text.items ≡ named_line name.now line.now) }
{
    let mut text = format!(in heap; "{name}: ")?.into_bytes();
    text.extend_from_slice(line)?;
    text.push(b'\n').map_err(AllocError::from)?;
    Ok(text)
}
