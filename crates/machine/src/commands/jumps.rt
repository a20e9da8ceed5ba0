//! Jumps.

ghost use Rattle.machine.specs.Commands.{fetch, jumped, jumped_if};
ghost use Rattle.std.specs.Prelude.{◌≡◌};
ghost use Rattle.machine.specs.Cores.{core_of};

use crate::flags::calls::Condition;
use crate::processor::Processor;
use crate::processor::calls::R15;
use isa::fetched::Fetched;

impl Processor {
    /// Goes to the address. Nothing is asked of it: the next step does.
    pub(crate) fn jump(&mut self, word: Fetched)
        ensures { core_of self.new ≡ jumped (fetch word.word (core_of self.old)) }
    {
        self.set_register(R15, word.address().value);
    }

    /// Goes to the address where a condition is met.
    pub(crate) fn jump_if(&mut self, word: Fetched, condition: Condition)
        ensures { core_of self.new ≡ jumped_if condition (fetch word.word (core_of self.old)) }
    {
        if self.flags().meet(condition) {
            self.jump(word);
        }
    }
}
