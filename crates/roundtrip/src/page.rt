//! The begin of an output.

ghost use Rattle.std.specs.Prelude.{◌≡◌, take};

/// The first bytes of an output, as many of them as there are.
pub(crate) fn front(bytes: &[u8], length: usize) -> &[u8]
    ensures { result.now ≡ take length bytes.now }
{
    &bytes[..length.min(bytes.len())]
}
