//! Whole numbers.

ghost use Rattle.std.specs.Prelude.{◌≡◌, IfErr};
ghost use Rattle.machine.specs.Commands.{combination_of, combine, compare, divide, invert, multiply, set, shift, shift_asked};
ghost use Rattle.machine.specs.Cores.{core_of};
ghost use Rattle.machine.specs.Outcomes.{Computes};

use crate::cause::Cause;
use crate::flags::Flags;
use crate::operation::{Combination, Direction, Operand};
use crate::pair::Pair;
use crate::processor::Processor;
use crate::rules::Rules;
use crate::turn::Turn;
use isa::fetched::Fetched;

impl Combination {
    /// The word that is made of two.
    fn of(self, a: u32, b: u32) -> u32
        ensures { result ≡ combination_of self a b }
    {
        match self {
            Combination::Sum => a.wrapping_add(b),
            Combination::Difference => a.wrapping_sub(b),
            Combination::And => a & b,
            Combination::Or => a | b,
            Combination::Xor => a ^ b,
        }
    }
}

impl Direction {
    /// A word that is shifted by at most 31, or question 35.
    fn of(self, a: u32, b: u32) -> Result<u32, Cause>
        ensures { result ≡ shift_asked self a b }
    {
        if b > 31 {
            return Err(Cause::Shift);
        }
        Ok(match self {
            Direction::Left => a << b,
            Direction::Right => a >> b,
        })
    }
}

impl Processor {
    /// Makes the first register of itself and the operand.
    pub(crate) fn combine(
        &mut self,
        rules: &Rules<'_>,
        word: Fetched,
        how: Combination,
        operand: Operand,
    ) -> Result<Turn, Cause>
        ensures value { Computes rules.now (combine how operand) word self.old result self.new }
        ensures kept { IfErr result (λ _. core_of self.new ≡ core_of self.old) }
    {
        let first = word.first();
        let value = self.operand(rules, word, operand)?;
        rules.read(first)?;
        rules.write(first)?;
        self.set_register(first, how.of(self.register(first), value));
        Ok(Turn::Next)
    }

    /// Multiplies the first register by the operand, into a pair.
    pub(crate) fn multiply(
        &mut self,
        rules: &Rules<'_>,
        word: Fetched,
        operand: Operand,
    ) -> Result<Turn, Cause>
        ensures value { Computes rules.now (multiply operand) word self.old result self.new }
        ensures kept { IfErr result (λ _. core_of self.new ≡ core_of self.old) }
    {
        let pair = Pair::at(word.first())?;
        let value = self.operand(rules, word, operand)?;
        rules.read(pair.low())?;
        rules.write_pair(pair)?;
        self.set_pair(
            pair,
            integers::pair::multiply(self.register(pair.low()), value),
        );
        Ok(Turn::Next)
    }

    /// Divides a pair by the operand, into quotient and remainder.
    pub(crate) fn divide(
        &mut self,
        rules: &Rules<'_>,
        word: Fetched,
        operand: Operand,
    ) -> Result<Turn, Cause>
        ensures value { Computes rules.now (divide operand) word self.old result self.new }
        ensures kept { IfErr result (λ _. core_of self.new ≡ core_of self.old) }
    {
        let pair = Pair::at(word.first())?;
        let divisor = self.operand(rules, word, operand)?;
        rules.read_pair(pair)?;
        rules.write_pair(pair)?;
        let results = integers::division::divide(self.pair(pair), divisor)?;
        self.set_pair(pair, results);
        Ok(Turn::Next)
    }

    /// Changes every bit of the first register.
    pub(crate) fn invert(&mut self, rules: &Rules<'_>, word: Fetched) -> Result<Turn, Cause>
        ensures value { Computes rules.now invert word self.old result self.new }
        ensures kept { IfErr result (λ _. core_of self.new ≡ core_of self.old) }
    {
        let first = word.first();
        rules.read(first)?;
        rules.write(first)?;
        self.set_register(first, !self.register(first));
        Ok(Turn::Next)
    }

    /// Shifts the first register by the operand.
    pub(crate) fn shift(
        &mut self,
        rules: &Rules<'_>,
        word: Fetched,
        direction: Direction,
        operand: Operand,
    ) -> Result<Turn, Cause>
        ensures value { Computes rules.now (shift direction operand) word self.old result self.new }
        ensures kept { IfErr result (λ _. core_of self.new ≡ core_of self.old) }
    {
        let first = word.first();
        let value = self.operand(rules, word, operand)?;
        rules.read(first)?;
        rules.write(first)?;
        let shifted = direction.of(self.register(first), value)?;
        self.set_register(first, shifted);
        Ok(Turn::Next)
    }

    /// Compares the first register with the operand.
    pub(crate) fn compare(
        &mut self,
        rules: &Rules<'_>,
        word: Fetched,
        operand: Operand,
    ) -> Result<Turn, Cause>
        ensures value { Computes rules.now (compare operand) word self.old result self.new }
        ensures kept { IfErr result (λ _. core_of self.new ≡ core_of self.old) }
    {
        let value = self.operand(rules, word, operand)?;
        rules.read(word.first())?;
        let order = self.register(word.first()).cmp(&value);
        self.set_flags(Flags::compared(Some(order)));
        Ok(Turn::Next)
    }

    /// Sets the first register to the operand.
    pub(crate) fn set(
        &mut self,
        rules: &Rules<'_>,
        word: Fetched,
        operand: Operand,
    ) -> Result<Turn, Cause>
        ensures value { Computes rules.now (set operand) word self.old result self.new }
        ensures kept { IfErr result (λ _. core_of self.new ≡ core_of self.old) }
    {
        let value = self.operand(rules, word, operand)?;
        rules.write(word.first())?;
        self.set_register(word.first(), value);
        Ok(Turn::Next)
    }
}
