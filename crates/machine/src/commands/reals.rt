//! Doubles.

ghost use Rattle.std.specs.Prelude.{◌≡◌, IfErr};
ghost use Rattle.machine.specs.Commands.{calculate, calculation_of, compare_doubles, make_double, make_word};
ghost use Rattle.machine.specs.Cores.{core_of};
ghost use Rattle.machine.specs.Outcomes.{Computes};

use crate::cause::Cause;
use crate::flags::Flags;
use crate::operation::{Calculation, Operand};
use crate::pair::Pair;
use crate::processor::Processor;
use crate::rules::Rules;
use crate::turn::Turn;
use doubles::arithmetic::{add, divide, multiply, subtract};
use doubles::comparison::compare;
use doubles::conversion::{from_word, to_word};
use integers::pair::split;
use isa::fetched::Fetched;

impl Calculation {
    /// The double that is made of two.
    fn of(self, a: u64, b: u64) -> u64
        ensures { result ≡ calculation_of self a b }
    {
        match self {
            Calculation::Sum => add(a, b),
            Calculation::Difference => subtract(a, b),
            Calculation::Product => multiply(a, b),
            Calculation::Quotient => divide(a, b),
        }
    }
}

impl Processor {
    /// Makes a double of the operand, into a pair.
    pub(crate) fn make_double(
        &mut self,
        rules: &Rules<'_>,
        word: Fetched,
        operand: Operand,
    ) -> Result<Turn, Cause>
        ensures value { Computes rules.now (make_double operand) word self.old result self.new }
        ensures kept { IfErr result (λ _. core_of self.new ≡ core_of self.old) }
    {
        let pair = Pair::at(word.first())?;
        let value = self.operand(rules, word, operand)?;
        rules.write_pair(pair)?;
        self.set_pair(pair, split(from_word(value)));
        Ok(Turn::Next)
    }

    /// Makes a word of a double.
    pub(crate) fn make_word(&mut self, rules: &Rules<'_>, word: Fetched) -> Result<Turn, Cause>
        ensures value { Computes rules.now make_word word self.old result self.new }
        ensures kept { IfErr result (λ _. core_of self.new ≡ core_of self.old) }
    {
        let pair = Pair::at(word.source())?;
        rules.read_pair(pair)?;
        rules.write(word.first())?;
        let value = to_word(self.pair(pair))?;
        self.set_register(word.first(), value);
        Ok(Turn::Next)
    }

    /// Makes a double of two, into the pair of the first.
    pub(crate) fn calculate(
        &mut self,
        rules: &Rules<'_>,
        word: Fetched,
        how: Calculation,
    ) -> Result<Turn, Cause>
        ensures value { Computes rules.now (calculate how) word self.old result self.new }
        ensures kept { IfErr result (λ _. core_of self.new ≡ core_of self.old) }
    {
        let first = Pair::at(word.first())?;
        let source = Pair::at(word.source())?;
        rules.read_pair(source)?;
        rules.read_pair(first)?;
        rules.write_pair(first)?;
        self.set_pair(first, split(how.of(self.pair(first), self.pair(source))));
        Ok(Turn::Next)
    }

    /// Compares two doubles.
    pub(crate) fn compare_doubles(
        &mut self,
        rules: &Rules<'_>,
        word: Fetched,
    ) -> Result<Turn, Cause>
        ensures value { Computes rules.now compare_doubles word self.old result self.new }
        ensures kept { IfErr result (λ _. core_of self.new ≡ core_of self.old) }
    {
        let first = Pair::at(word.first())?;
        let source = Pair::at(word.source())?;
        rules.read_pair(source)?;
        rules.read_pair(first)?;
        let order = compare(self.pair(first), self.pair(source));
        self.set_flags(Flags::compared(order));
        Ok(Turn::Next)
    }
}
