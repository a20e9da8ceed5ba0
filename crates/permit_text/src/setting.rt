//! What a line of a permit file sets.

ghost use Rattle.std.specs.Prelude.{◌≡◌};
ghost use Rattle.std.specs.Option.{option_map};
ghost use Rattle.numerals.specs.Natural.{capped};
ghost use Rattle.permit.specs.Rights.{rights_of, answer};
ghost use Rattle.permit_text.specs.Settings.{only_number, register_in, setting_in, capped_setting, in_range, with_setting};
ghost use Rattle.permit_text.specs.Words.{words_of};

use crate::words::split_word;
use numerals::natural::read_natural;
use permit::permit::Permit;
use permit::refusal::Refusal;

/// One thing of a permit and what it is set to, by any numbers.
#[derive(Clone, Copy)]
pub(crate) enum Setting {
    /// A register and its level.
    Register(u64, u64),
    /// A segment, 0 for the code and 1 for the constants, and its level.
    Segment(u64, u64),
    /// The stack's maximum.
    Stack(u64),
}

/// The number of the only word that is left of a line.
fn only_number(line: &[u8]) -> Option<u64>
    ensures { result ≡ option_map capped (only_number (words_of line.now)) }
{
    let (word, rest) = split_word(line)?;
    match split_word(rest) {
        None => read_natural(word),
        Some(_) => None,
    }
}

/// The setting of the register and the level that are left of a line.
fn register_in(line: &[u8]) -> Option<Setting>
    ensures { result ≡ option_map capped_setting (register_in (words_of line.now)) }
{
    let (word, rest) = split_word(line)?;
    let register = read_natural(word)?;
    only_number(rest).map(|level| Setting::Register(register, level))
}

impl Setting {
    /// The setting that a name and what follows it on the line write.
    pub(crate) fn named(name: &[u8], line: &[u8]) -> Option<Setting>
        ensures { result ≡ option_map capped_setting (setting_in name.now (words_of line.now)) }
    {
        if name == b"register".as_slice() {
            register_in(line)
        } else if name == b"code".as_slice() {
            only_number(line).map(|level| Setting::Segment(0, level))
        } else if name == b"constants".as_slice() {
            only_number(line).map(|level| Setting::Segment(1, level))
        } else if name == b"stack".as_slice() {
            only_number(line).map(Setting::Stack)
        } else {
            None
        }
    }

    /// Makes the setting in a permit.
    pub(crate) fn make(self, permit: &mut Permit) -> Result<(), Refusal>
        ensures value { result ≡ answer (in_range self) }
        ensures after { rights_of permit.new ≡ with_setting self (rights_of permit.old) }
    {
        match self {
            Setting::Register(register, level) => permit.set_register(register, level),
            Setting::Segment(segment, level) => permit.set_segment(segment, level),
            Setting::Stack(words) => permit.set_stack(words),
        }
    }
}
