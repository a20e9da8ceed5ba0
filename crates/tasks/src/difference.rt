//! Where two texts differ first.

ghost use Rattle.std.specs.Prelude.{◌≡◌, ◌≤◌, ◌↔◌, ◌==◌, IsNone, length, option_map};
ghost use Rattle.std.specs.List.{before_first, count_by};
ghost use Rattle.tasks.specs.Difference.{common, first_difference, line_start, shown};

/// The first line in which two texts differ.
#[derive(Clone, Copy)]
pub struct Difference<'a> {
    /// Its number, counted from 1.
    pub line: usize,
    /// Where it begins in both texts.
    pub start: usize,
    /// This line of the left text, without its line end.
    pub left: &'a [u8],
    /// This line of the right text, without its line end.
    pub right: &'a [u8],
}

/// How many items two lists have in common at the front.
pub fn common_len<T: Copy + PartialEq>(left: &[T], right: &[T]) -> usize
    ensures value { result ≡ common T.eq left.now right.now }
    ensures in_left { result ≤ length left.now }
    ensures in_right { result ≤ length right.now }
{
    let mut count = 0;
    while count < left.len() && count < right.len() && left[count] == right[count] {
        count += 1;
    }
    count
}

/// How many line ends a text has.
fn count_line_ends(text: &[u8]) -> usize
    ensures { result ≡ count_by (λ b. b == 10) text.now }
{
    text.iter().filter(|byte| **byte == b'\n').count()
}

/// Where the last line of a text begins.
fn line_start(text: &[u8]) -> usize
    ensures value { result ≡ line_start text.now }
    ensures within { result ≤ length text.now }
{
    let mut start = text.len();
    while start > 0 && text[start - 1] != b'\n' {
        start -= 1;
    }
    start
}

/// The first line of a text, without its line end.
fn first_line(text: &[u8]) -> &[u8]
    ensures { result.now ≡ before_first (λ b. b == 10) text.now }
{
    let end = text.iter().position(|byte| *byte == b'\n');
    &text[..end.unwrap_or(text.len())]
}

/// The first line in which two texts differ, or none where they are equal.
pub fn first_difference<'a>(left: &'a [u8], right: &'a [u8]) -> Option<Difference<'a>>
    ensures value { option_map shown result ≡ first_difference left.now right.now }
    ensures none { IsNone result ↔ (left.now ≡ right.now) }
{
    if left == right {
        return None;
    }
    let front = &left[..common_len(left, right)];
    let start = line_start(front);
    Some(Difference {
        line: count_line_ends(front) + 1,
        start,
        left: first_line(&left[start..]),
        right: first_line(&right[start..]),
    })
}
