//! Operands.

ghost use Rattle.std.specs.Prelude.{◌≡◌, ℕ, List};
ghost use Rattle.host.specs.Meaning.{Meaning};
ghost use Rattle.machine.specs.Act.{Act, perform, on_yes};
ghost use Rattle.machine.specs.Commands.{fetch, with_operand};
ghost use Rattle.machine.specs.Cores.{core_of};
ghost use Rattle.machine.specs.Rules.{rules_of};

use crate::cause::Cause;
use crate::operation::Operand;
use crate::processor::Processor;
use crate::rules::Rules;
use isa::fetched::Fetched;

impl Processor {
    /// The operand of a word.
    pub(crate) fn operand(
        &self,
        rules: &Rules<'_>,
        word: Fetched,
        operand: Operand,
    ) -> Result<u32, Cause>
        ensures { (k : ℕ → Act) → (c : List ℕ) → (m : Meaning) → perform (rules_of rules.now) (with_operand operand (fetch word.word (core_of self.now)) k) c m ≡ on_yes result (λ v. perform (rules_of rules.now) (k v) c m) }
    {
        match operand {
            Operand::Source => {
                rules.read(word.source())?;
                Ok(self.register(word.source()).wrapping_add(word.modifier()))
            }
            Operand::Immediate => Ok(word.immediate()),
            Operand::Address => Ok(word.address().value),
        }
    }
}
