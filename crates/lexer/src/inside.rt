//! Where the reading of a line stands between two bytes.

ghost use Rattle.std.specs.Prelude.{◌≡◌, ◌≤◌, ◌&&◌, [], length, MatchOption};
ghost use Rattle.lexer.specs.Parts.{WordFirst};
ghost use Rattle.lexer.specs.Text.{before, code_of, spelled, blank, word_left, open?, onward};

/// Between words, in a word, in a quoted part, or right after a backslash in one.
#[derive(Clone, Copy)]
pub(crate) enum Inside {
    Gap,
    Plain,
    Quoted,
    Taken,
}

/// Where a byte leads.
fn onward_from(at: Inside, b: u8) -> Inside
    ensures { result ≡ onward at b }
{
    match (at, b) {
        (Inside::Gap, b'"') => Inside::Quoted,
        (Inside::Gap, _) => Inside::Plain,
        (Inside::Plain, _) => Inside::Plain,
        (Inside::Quoted, b'"') => Inside::Plain,
        (Inside::Quoted, b'\\') => Inside::Taken,
        (Inside::Quoted, _) => Inside::Quoted,
        (Inside::Taken, _) => Inside::Quoted,
    }
}

fn is_blank(b: u8) -> bool
    ensures { result ≡ blank b }
{
    matches!(b, b' ' | b'\t')
}

/// Whether a byte ends the word there.
fn ends_word(at: Inside, b: u8) -> bool
    ensures { result ≡ (open? at && blank b) }
{
    matches!(at, Inside::Gap | Inside::Plain) && is_blank(b)
}

/// What stands before the first `b`, or all where there is none.
pub(crate) fn before(s: &[u8], b: u8) -> &[u8]
    ensures value { result.now ≡ before b s.now }
    ensures within { length result.now ≤ length s.now }
{
    let count = s.iter().position(|x| *x == b).unwrap_or(s.len());
    s.split_at(count).0
}

/// The code of a line: what stands before its comment.
pub(crate) fn code_of(line: &[u8]) -> &[u8]
    ensures value { result.now ≡ code_of line.now }
    ensures within { length result.now ≤ length line.now }
{
    before(line, b'#')
}

/// How many bytes the word in front has.
fn word_len(s: &[u8]) -> usize
    ensures count { result ≡ word_left Inside.Gap s.now }
    ensures within { result ≤ length s.now }
{
    let mut at = Inside::Gap;
    for (i, x) in s.iter().enumerate() {
        if ends_word(at, *x) {
            return i;
        }
        at = onward_from(at, *x);
    }
    s.len()
}

/// How many blanks stand before the first word, that word, and what follows it.
pub(crate) fn split_word(code: &[u8]) -> Option<(usize, &[u8], &[u8])>
    ensures { MatchOption result (spelled Inside.Gap code.now ≡ []) (λ w. WordFirst code.now w.0 w.1.now w.2.now) }
{
    let blanks = code.iter().position(|b| !is_blank(*b))?;
    let (_, from) = code.split_at(blanks);
    let (word, rest) = from.split_at(word_len(from));
    Some((blanks, word, rest))
}

/// How many words some code has.
#[tactic(auto, using(crate::proofs::Stands::few_words))]
pub(crate) fn count_words(code: &[u8]) -> usize
    ensures { result ≡ length (spelled Inside.Gap code.now) }
{
    let mut count = 0;
    let mut left = code;
    while let Some((_, _, after)) = split_word(left) {
        left = after;
        count += 1;
    }
    count
}
