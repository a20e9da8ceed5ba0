//! The words of a case.

ghost use Rattle.std.specs.Str.Iter.{split_whitespace_steps};
ghost use Rattle.std.specs.Result.{result_ok};

use anyhow::Context;
use std::str::SplitWhitespace;

/// The next word, or an error that names what is missing.
pub fn next_word<'a>(words: &mut SplitWhitespace<'a>, what: &str) -> anyhow::Result<&'a str>
    ensures { split_whitespace_steps words.old (result_ok result) words.new }
{
    words.next().context(format_args!("a case has no {what}"))
}
