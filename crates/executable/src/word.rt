//! Words in a run of bytes.

ghost use Rattle.std.specs.Prelude.{◌≡◌};
ghost use Rattle.std.specs.List.{slice_get};
ghost use Rattle.executable.specs.Bytes.{words_of};

/// The word with an index, or none past the last whole word.
pub fn word_at(bytes: &[u8], index: usize) -> Option<u32>
    ensures { result ≡ slice_get (words_of bytes.now) index }
{
    let (words, _) = bytes.as_chunks();
    words.get(index).map(|word| u32::from_le_bytes(*word))
}
