//! Counting words.

ghost use Rattle.std.specs.Prelude.{◌≡◌, ◌+◌, ◌≤◌, if◌then◌else◌, Some, None, nat_le};
ghost use Rattle.std.specs.Option.{option_map};
ghost use Rattle.assembler.specs.Progress.{counted};

use crate::sizes::Sizes;

impl Sizes {
    /// No words.
    pub(crate) fn new() -> Sizes
        ensures { counted result ≡ (0, 0) }
    {
        Sizes {
            code: 0,
            constants: 0,
        }
    }

    /// How many words there are in all.
    pub(crate) fn total(self) -> u32
        ensures { result ≡ self.code + self.constants }
    {
        self.code + self.constants
    }

    /// Question 10: these words and some more, or none where they are more than 65,536.
    pub(crate) fn plus(self, code: u32, constants: usize) -> Option<Sizes>
        ensures { option_map counted result ≡ (if nat_le (self.code + self.constants + (code + constants)) 65536 then Some (self.code + code, self.constants + constants) else None) }
    {
        let left = 65_536 - self.total();
        let constants = u32::try_from(constants).ok()?;
        if code > left || constants > left - code {
            return None;
        }
        Some(Sizes {
            code: self.code + code,
            constants: self.constants + constants,
        })
    }
}
