//! Calls of functions, and returns from them.

ghost use Rattle.std.specs.Prelude.{◌≡◌, IfErr};
ghost use Rattle.std.specs.Option.{option_map};
ghost use Rattle.host.specs.Meaning.{Meaning};
ghost use Rattle.machine.specs.Act.{perform};
ghost use Rattle.machine.specs.Commands.{call, call_address, enter, framed, prepare, return_from};
ghost use Rattle.machine.specs.Cores.{core_of};
ghost use Rattle.machine.specs.Outcomes.{outcome, Stores};
ghost use Rattle.machine.specs.Rules.{rules_of};

use crate::access::Access;
use crate::cause::Cause;
use crate::operation::Operand;
use crate::processor::Processor;
use crate::processor::calls::{R13, R14, R15};
use crate::rules::Rules;
use crate::turn::Turn;
use isa::fetched::Fetched;
use isa::register::Register;

impl Processor {
    /// Sets r14 and r13 to the top of the stack.
    fn frame(&mut self, top: u32)
        ensures { core_of self.new ≡ framed top (core_of self.old) }
    {
        self.set_register(R14, top);
        self.set_register(R13, top);
    }

    /// Prepares a call: pushes r13, and sets it to the lowered r14.
    pub(crate) fn prepare(
        &mut self,
        rules: &Rules<'_>,
        word: Fetched,
        cells: &mut [u32],
    ) -> Result<Turn, Cause>
        ensures value { Stores rules.now prepare word self.old cells.old result self.new cells.new }
        ensures kept { IfErr result (λ _. core_of self.new ≡ core_of self.old) }
        ensures cells { IfErr result (λ _. cells.new ≡ cells.old) }
    {
        let top = self.register(R14);
        rules.push(cells.len(), top as usize)?;
        cells[top as usize] = self.register(R13);
        self.frame(top.wrapping_sub(1));
        Ok(Turn::Next)
    }

    /// Pushes r15 and then r13, and sets r13 to the lowered r14. A receiver gets the return address, and last r15 the target.
    fn enter(
        &mut self,
        rules: &Rules<'_>,
        cells: &mut [u32],
        receiver: Option<Register>,
        target: u32,
    ) -> Result<Turn, Cause>
        ensures value { (m : Meaning) → perform (rules_of rules.now) (enter (option_map (λ r. r.number) receiver) target (core_of self.old)) cells.old m ≡ outcome result (core_of self.new) cells.new m }
        ensures kept { IfErr result (λ _. core_of self.new ≡ core_of self.old) }
        ensures cells { IfErr result (λ _. cells.new ≡ cells.old) }
    {
        let back = self.register(R15);
        let top = self.register(R14);
        let next = top.wrapping_sub(1);
        rules.push(cells.len(), top as usize)?;
        rules.push(cells.len(), next as usize)?;
        cells[top as usize] = back;
        cells[next as usize] = self.register(R13);
        self.frame(next.wrapping_sub(1));
        if let Some(register) = receiver {
            self.set_register(register, back);
        }
        self.set_register(R15, target);
        Ok(Turn::Next)
    }

    /// Calls the function at the operand. The first register gets the return address.
    pub(crate) fn call(
        &mut self,
        rules: &Rules<'_>,
        word: Fetched,
        cells: &mut [u32],
        operand: Operand,
    ) -> Result<Turn, Cause>
        ensures value { Stores rules.now (call operand) word self.old cells.old result self.new cells.new }
        ensures kept { IfErr result (λ _. core_of self.new ≡ core_of self.old) }
        ensures cells { IfErr result (λ _. cells.new ≡ cells.old) }
    {
        let target = self.operand(rules, word, operand)?;
        rules.write(word.first())?;
        if target as usize >= cells.len() {
            return Err(Cause::Cell);
        }
        self.enter(rules, cells, Some(word.first()), target)
    }

    /// Calls the function at the address, of which nothing is asked.
    pub(crate) fn call_address(
        &mut self,
        rules: &Rules<'_>,
        word: Fetched,
        cells: &mut [u32],
    ) -> Result<Turn, Cause>
        ensures value { Stores rules.now call_address word self.old cells.old result self.new cells.new }
        ensures kept { IfErr result (λ _. core_of self.new ≡ core_of self.old) }
        ensures cells { IfErr result (λ _. cells.new ≡ cells.old) }
    {
        self.enter(rules, cells, None, word.address().value)
    }

    /// Returns from a function: takes the caller's frame, the return address and the stack pointer from the stack.
    pub(crate) fn return_from(&mut self, rules: &Rules<'_>, cells: &[u32]) -> Result<Turn, Cause>
        ensures value { (m : Meaning) → perform (rules_of rules.now) (return_from (core_of self.old)) cells.now m ≡ outcome result (core_of self.new) cells.now m }
        ensures kept { IfErr result (λ _. core_of self.new ≡ core_of self.old) }
    {
        let frame = self.register(R13).wrapping_add(1);
        rules.cell(cells.len(), Access::Reading, frame as usize)?;
        let back = frame.wrapping_add(1);
        rules.cell(cells.len(), Access::Reading, back as usize)?;
        let top = cells[frame as usize].wrapping_add(1);
        rules.cell(cells.len(), Access::Reading, top as usize)?;
        self.set_register(R13, cells[top as usize]);
        self.set_register(R14, top);
        self.set_register(R15, cells[back as usize]);
        Ok(Turn::Next)
    }
}
