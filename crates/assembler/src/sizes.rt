//! How many words an executable has.

ghost use Rattle.std.specs.Prelude.{◌+◌, ◌≤◌};

mod calls;

/// How many words of code and of constants there are: 65,536 at most in all.
#[derive(Clone, Copy)]
pub(crate) struct Sizes {
    pub(crate) code: u32,
    pub(crate) constants: u32,
    ghost few: { code + constants ≤ 65536 },
}
