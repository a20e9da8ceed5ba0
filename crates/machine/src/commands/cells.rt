//! Between registers and cells.

ghost use Rattle.std.specs.Prelude.{◌≡◌, IfErr};
ghost use Rattle.machine.specs.Commands.{load_pair, load_word, store_pair, store_word};
ghost use Rattle.machine.specs.Cores.{core_of};
ghost use Rattle.machine.specs.Outcomes.{Stores};

use crate::access::Access;
use crate::cause::Cause;
use crate::operation::Operand;
use crate::pair::Pair;
use crate::processor::Processor;
use crate::rules::Rules;
use crate::turn::Turn;
use isa::fetched::Fetched;

impl Processor {
    /// Reads the cell at the operand into the first register.
    pub(crate) fn load_word(
        &mut self,
        rules: &Rules<'_>,
        word: Fetched,
        cells: &[u32],
        operand: Operand,
    ) -> Result<Turn, Cause>
        ensures value { Stores rules.now (load_word operand) word self.old cells.now result self.new cells.now }
        ensures kept { IfErr result (λ _. core_of self.new ≡ core_of self.old) }
    {
        let cell = self.operand(rules, word, operand)? as usize;
        rules.write(word.first())?;
        rules.cell(cells.len(), Access::Reading, cell)?;
        self.set_register(word.first(), cells[cell]);
        Ok(Turn::Next)
    }

    /// Reads the cell at the operand and the next one into a pair.
    pub(crate) fn load_pair(
        &mut self,
        rules: &Rules<'_>,
        word: Fetched,
        cells: &[u32],
        operand: Operand,
    ) -> Result<Turn, Cause>
        ensures value { Stores rules.now (load_pair operand) word self.old cells.now result self.new cells.now }
        ensures kept { IfErr result (λ _. core_of self.new ≡ core_of self.old) }
    {
        let pair = Pair::at(word.first())?;
        let cell = self.operand(rules, word, operand)? as usize;
        rules.write_pair(pair)?;
        rules.cell(cells.len(), Access::Reading, cell)?;
        rules.cell(cells.len(), Access::Reading, cell + 1)?;
        self.set_pair(pair, (cells[cell], cells[cell + 1]));
        Ok(Turn::Next)
    }

    /// Writes the first register to the cell at the operand.
    pub(crate) fn store_word(
        &self,
        rules: &Rules<'_>,
        word: Fetched,
        cells: &mut [u32],
        operand: Operand,
    ) -> Result<Turn, Cause>
        ensures value { Stores rules.now (store_word operand) word self.now cells.old result self.now cells.new }
        ensures kept { IfErr result (λ _. cells.new ≡ cells.old) }
    {
        let cell = self.operand(rules, word, operand)? as usize;
        rules.read(word.first())?;
        rules.cell(cells.len(), Access::Writing, cell)?;
        cells[cell] = self.register(word.first());
        Ok(Turn::Next)
    }

    /// Writes a pair to the cell at the operand and the next one.
    pub(crate) fn store_pair(
        &self,
        rules: &Rules<'_>,
        word: Fetched,
        cells: &mut [u32],
        operand: Operand,
    ) -> Result<Turn, Cause>
        ensures value { Stores rules.now (store_pair operand) word self.now cells.old result self.now cells.new }
        ensures kept { IfErr result (λ _. cells.new ≡ cells.old) }
    {
        let pair = Pair::at(word.first())?;
        let cell = self.operand(rules, word, operand)? as usize;
        rules.read_pair(pair)?;
        rules.cell(cells.len(), Access::Writing, cell)?;
        rules.cell(cells.len(), Access::Writing, cell + 1)?;
        cells[cell] = self.register(pair.low());
        cells[cell + 1] = self.register(pair.high());
        Ok(Turn::Next)
    }
}
