//! The flags: the result of the latest comparison.

ghost use Rattle.std.specs.Prelude.{◌≡◌, true};
ghost use Rattle.machine.specs.Flags.{is_flags};

pub mod calls;

/// What the flags register holds: one of five numbers.
#[derive(Clone, Copy)]
pub struct Flags {
    value: u8,
    ghost lawful: { is_flags value ≡ true },
}
