//! The stack. It grows downwards, and r14 is the cell that the next word is put into.

ghost use Rattle.std.specs.Prelude.{◌≡◌, IfErr};
ghost use Rattle.machine.specs.Commands.{pop_word, push_word};
ghost use Rattle.machine.specs.Cores.{core_of};
ghost use Rattle.machine.specs.Outcomes.{Stores};

use crate::access::Access;
use crate::cause::Cause;
use crate::processor::Processor;
use crate::processor::calls::R14;
use crate::rules::Rules;
use crate::turn::Turn;
use isa::fetched::Fetched;

impl Processor {
    /// Puts the first register plus the immediate onto the stack.
    pub(crate) fn push(
        &mut self,
        rules: &Rules<'_>,
        word: Fetched,
        cells: &mut [u32],
    ) -> Result<Turn, Cause>
        ensures value { Stores rules.now push_word word self.old cells.old result self.new cells.new }
        ensures kept { IfErr result (λ _. core_of self.new ≡ core_of self.old) }
        ensures cells { IfErr result (λ _. cells.new ≡ cells.old) }
    {
        rules.read(word.first())?;
        let top = self.register(R14);
        rules.push(cells.len(), top as usize)?;
        cells[top as usize] = self.register(word.first()).wrapping_add(word.immediate());
        self.set_register(R14, top.wrapping_sub(1));
        Ok(Turn::Next)
    }

    /// Takes a word from the stack, plus the immediate into the first register, which is written last.
    pub(crate) fn pop(
        &mut self,
        rules: &Rules<'_>,
        word: Fetched,
        cells: &[u32],
    ) -> Result<Turn, Cause>
        ensures value { Stores rules.now pop_word word self.old cells.now result self.new cells.now }
        ensures kept { IfErr result (λ _. core_of self.new ≡ core_of self.old) }
    {
        rules.write(word.first())?;
        let top = self.register(R14).wrapping_add(1);
        rules.cell(cells.len(), Access::Reading, top as usize)?;
        let value = cells[top as usize].wrapping_add(word.immediate());
        self.set_register(R14, top);
        self.set_register(word.first(), value);
        Ok(Turn::Next)
    }
}
