//! Reading a permit file.

ghost use Rattle.std.specs.Prelude.{◌≡◌, IfErr};
ghost use Rattle.permit.specs.Rights.{rights_of};
ghost use Rattle.permit_text.specs.Errors.{line_of, IsLineOf};
ghost use Rattle.permit_text.specs.Files.{after_setting, after_line, permit_in, outcome, shown};
ghost use Rattle.permit_text.specs.Words.{words_of};

use crate::error::PermitError;
use crate::setting::Setting;
use crate::words::split_word;
use lexer::lines::{Line, Lines};
use permit::permit::Permit;

/// Makes the setting of a line in a permit, or refuses the line.
fn make(permit: &mut Permit, line: usize, setting: Option<Setting>) -> Result<(), PermitError>
    ensures { outcome result (rights_of permit.new) ≡ after_setting line setting (rights_of permit.old) }
{
    setting
        .ok_or(PermitError::NoSetting { line })?
        .make(permit)
        .map_err(|_| PermitError::OutOfRange { line })
}

/// Makes in a permit what a line sets. A line without words says nothing.
#[tactic(auto, using(crate::proofs::Capped::as_capped))]
fn set_line(permit: &mut Permit, line: Line<'_>) -> Result<(), PermitError>
    ensures { outcome result (rights_of permit.new) ≡ after_line line.entry.number (words_of line.entry.code.now) (rights_of permit.old) }
{
    match split_word(line.code) {
        None => Ok(()),
        Some((name, rest)) => make(permit, line.number, Setting::named(name, rest)),
    }
}

/// The permit of a permit file: a new permit with what each line sets, or the first line that is refused.
pub fn read_permit(text: &[u8]) -> Result<Permit, PermitError>
    ensures value { shown result ≡ permit_in text.now }
    ensures line { IfErr result (λ e. IsLineOf text.now (line_of e)) }
{
    let mut permit = Permit::new();
    for line in Lines::new(text) {
        set_line(&mut permit, line)?;
    }
    Ok(permit)
}
