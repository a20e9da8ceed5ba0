//! Why a permit file is not read.

ghost use Rattle.std.specs.Prelude.{◌≡◌};
ghost use Rattle.permit_text.specs.Errors.{number_of, line_of};

use permit::refusal::Refusal;

/// Why a permit file is not read: its first line, counted from 1, that is refused.
#[derive(Clone, Copy)]
pub enum PermitError {
    /// No setting stands in this line.
    NoSetting { line: usize },
    /// 54: are all in range: register 0 to 15, level 0 to 2, maximum 0 to 1,048,576?
    OutOfRange { line: usize },
}

impl PermitError {
    /// The number by which the refusal is reported, or none where no setting stands in the line.
    pub fn number(self) -> Option<u8>
        ensures { result ≡ number_of self }
    {
        match self {
            PermitError::NoSetting { .. } => None,
            PermitError::OutOfRange { .. } => Some(Refusal::OutOfRange.number()),
        }
    }

    /// The line that is refused.
    pub fn line(self) -> usize
        ensures { result ≡ line_of self }
    {
        match self {
            PermitError::NoSetting { line } | PermitError::OutOfRange { line } => line,
        }
    }
}
