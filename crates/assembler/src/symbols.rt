//! The labels of a text: which address a name has.

ghost use Rattle.std.specs.Prelude.{◌≡◌, ℕ};
ghost use Rattle.std.specs.Option.{option_map, unwrap_or};
ghost use Rattle.assembler.specs.Emit.{is_lost, start_by, uses};
ghost use Rattle.assembler.specs.Labels.{address_in, name_in};
ghost use Rattle.assembler.specs.Statements.{meant};

use crate::label::Label;
use crate::labels::name_of;
use crate::statement::Statement;

/// A text, and entries for labels of it.
#[derive(Clone, Copy)]
pub(crate) struct Symbols<'a> {
    pub(crate) text: &'a [u8],
    pub(crate) labels: &'a [Label],
}

impl Symbols<'_> {
    /// The address of the first entry with a name.
    pub(crate) fn address_of(self, name: &[u8]) -> Option<u32>
        ensures { result ≡ address_in (name_in self.entry.text.now) name.now self.entry.labels.now }
    {
        self.labels
            .iter()
            .find(|label| name_of(self.text, **label) == name)
            .map(|label| label.address)
    }

    /// Whether a statement uses a label that is not defined.
    pub(crate) fn lacks(self, statement: Option<Statement>) -> bool
        ensures { result ≡ is_lost (name_in self.entry.text.now) self.entry.labels.now (uses (option_map meant statement.entry)) }
    {
        match statement {
            Some(Statement::Labelled { label, .. } | Statement::EndAt(label)) => {
                self.address_of(label).is_none()
            }
            _ => false,
        }
    }

    /// The first instruction that a statement names, if it is an `end`.
    pub(crate) fn start_in(self, statement: Option<Statement>) -> Option<u32>
        ensures { (d : ℕ) → unwrap_or result d ≡ start_by (name_in self.entry.text.now) self.entry.labels.now (option_map meant statement.entry) d }
    {
        match statement {
            Some(Statement::End(address)) => Some(address),
            Some(Statement::EndAt(label)) => Some(self.address_of(label).unwrap_or(0)),
            _ => None,
        }
    }
}
