//! The command in a fetched word.

ghost use Rattle.std.specs.Prelude.{◌≡◌, IfErr};
ghost use Rattle.machine.specs.Act.{perform};
ghost use Rattle.machine.specs.Commands.{act_of, fetch};
ghost use Rattle.machine.specs.Cores.{core_of};
ghost use Rattle.machine.specs.Outcomes.{outcome};
ghost use Rattle.machine.specs.Rules.{rules_of};

use crate::cause::Cause;
use crate::operation::Operation;
use crate::processor::Processor;
use crate::rules::Rules;
use crate::turn::Turn;
use host::host::Host;
use isa::fetched::Fetched;

impl Processor {
    /// Does an operation.
    pub(crate) fn execute<H: Host>(
        &mut self,
        rules: &Rules<'_>,
        word: Fetched,
        operation: Operation,
        cells: &mut [u32],
        host: &mut H,
    ) -> Result<Turn, Cause>
        ensures value { perform (rules_of rules.now) (act_of operation (fetch word.word (core_of self.old))) cells.old (H.meaning host.old) ≡ outcome result (core_of self.new) cells.new (H.meaning host.new) }
        ensures kept { IfErr result (λ _. core_of self.new ≡ core_of self.old) }
        ensures cells { IfErr result (λ _. cells.new ≡ cells.old) }
        ensures host { IfErr result (λ _. H.meaning host.new ≡ H.meaning host.old) }
        ensures lender { H.roots host.new ≡ H.roots host.old }
    {
        match operation {
            Operation::Halt => Ok(Turn::Halted),
            Operation::CallSystem => self.call_system(rules, word, host),
            Operation::Combine(how, operand) => self.combine(rules, word, how, operand),
            Operation::Multiply(operand) => self.multiply(rules, word, operand),
            Operation::Divide(operand) => self.divide(rules, word, operand),
            Operation::Invert => self.invert(rules, word),
            Operation::Shift(direction, operand) => self.shift(rules, word, direction, operand),
            Operation::MakeDouble(operand) => self.make_double(rules, word, operand),
            Operation::MakeWord => self.make_word(rules, word),
            Operation::Calculate(how) => self.calculate(rules, word, how),
            Operation::Compare(operand) => self.compare(rules, word, operand),
            Operation::CompareDoubles => self.compare_doubles(rules, word),
            Operation::Jump => {
                self.jump(word);
                Ok(Turn::Next)
            }
            Operation::JumpIf(condition) => {
                self.jump_if(word, condition);
                Ok(Turn::Next)
            }
            Operation::Push => self.push(rules, word, cells),
            Operation::Pop => self.pop(rules, word, cells),
            Operation::Set(operand) => self.set(rules, word, operand),
            Operation::Load(operand) => self.load_word(rules, word, cells, operand),
            Operation::LoadPair(operand) => self.load_pair(rules, word, cells, operand),
            Operation::Store(operand) => self.store_word(rules, word, cells, operand),
            Operation::StorePair(operand) => self.store_pair(rules, word, cells, operand),
            Operation::Prepare => self.prepare(rules, word, cells),
            Operation::Call(operand) => self.call(rules, word, cells, operand),
            Operation::CallAddress => self.call_address(rules, word, cells),
            Operation::Return => self.return_from(rules, cells),
        }
    }
}
