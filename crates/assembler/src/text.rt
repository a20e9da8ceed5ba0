//! Question 1: the bytes of a text.

ghost use Rattle.std.specs.Prelude.{◌≡◌};
ghost use Rattle.assembler.specs.Assembled.{text_byte, all_text_bytes, right_text};

/// Whether a byte may stand in a text.
fn is_text_byte(byte: u8) -> bool
    ensures { result ≡ text_byte byte }
{
    matches!(byte, 9 | 10 | 32..=126)
}

/// Whether all bytes may stand in a text.
fn are_text_bytes(text: &[u8]) -> bool
    ensures { result ≡ all_text_bytes text.now }
{
    text.iter().all(|byte| is_text_byte(*byte))
}

/// Question 1: the length and the bytes of a text.
pub(crate) fn is_text(text: &[u8]) -> bool
    ensures { result ≡ right_text text.now }
{
    text.len() <= 2_097_152 && are_text_bytes(text)
}
