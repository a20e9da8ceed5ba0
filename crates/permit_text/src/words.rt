//! The words of a line.

ghost use Rattle.std.specs.Prelude.{◌≡◌, [], ◌∷◌, MatchOption};
ghost use Rattle.permit_text.specs.Words.{is_blank, words_of};

/// Whether a byte parts words.
fn is_blank(b: u8) -> bool
    ensures { result ≡ is_blank b }
{
    matches!(b, b' ' | b'\t' | b'\r')
}

/// The first word of what is left of a line, and what follows it.
pub(crate) fn split_word(line: &[u8]) -> Option<(&[u8], &[u8])>
    ensures { MatchOption result (words_of line.now ≡ []) (λ w. words_of line.now ≡ w.0.now ∷ words_of w.1.now) }
{
    let start = line.iter().position(|b| !is_blank(*b))?;
    let (_, from) = line.split_at(start);
    let length = from.iter().position(|b| is_blank(*b)).unwrap_or(from.len());
    Some(from.split_at(length))
}
