//! What the opcodes do: one row for each.

ghost use Rattle.std.specs.Prelude.{◌≡◌, IfSome};
ghost use Rattle.isa.specs.Table.{form_of};
ghost use Rattle.machine.specs.Table.{operand_in, operand_of, operation_of};

use crate::flags::calls::Condition;
use isa::opcode::Opcode;

/// The operand that a command works with beside its first register.
#[derive(Clone, Copy)]
pub(crate) enum Operand {
    /// The source register plus the modifier.
    Source,
    /// The immediate.
    Immediate,
    /// The address.
    Address,
}

/// How a word is made of two.
#[derive(Clone, Copy)]
pub(crate) enum Combination {
    Sum,
    Difference,
    And,
    Or,
    Xor,
}

/// Which way a word is shifted.
#[derive(Clone, Copy)]
pub(crate) enum Direction {
    Left,
    Right,
}

/// How a double is made of two.
#[derive(Clone, Copy)]
pub(crate) enum Calculation {
    Sum,
    Difference,
    Product,
    Quotient,
}

/// What an opcode does.
#[derive(Clone, Copy)]
pub(crate) enum Operation {
    /// Stops the run.
    Halt,
    /// Calls the system.
    CallSystem,
    /// Makes the first register of itself and the operand.
    Combine(Combination, Operand),
    /// Multiplies the first register by the operand, into a pair.
    Multiply(Operand),
    /// Divides a pair by the operand, into quotient and remainder.
    Divide(Operand),
    /// Changes every bit of the first register.
    Invert,
    /// Shifts the first register by the operand.
    Shift(Direction, Operand),
    /// Makes a double of the operand.
    MakeDouble(Operand),
    /// Makes a word of a double.
    MakeWord,
    /// Makes a double of two.
    Calculate(Calculation),
    /// Compares the first register with the operand.
    Compare(Operand),
    /// Compares two doubles.
    CompareDoubles,
    /// Goes to the address.
    Jump,
    /// Goes to the address where a condition is met.
    JumpIf(Condition),
    /// Puts a word onto the stack.
    Push,
    /// Takes a word from the stack.
    Pop,
    /// Sets the first register to the operand.
    Set(Operand),
    /// Reads a cell into the first register.
    Load(Operand),
    /// Reads two cells into a pair.
    LoadPair(Operand),
    /// Writes the first register to a cell.
    Store(Operand),
    /// Writes a pair to two cells.
    StorePair(Operand),
    /// Prepares a call.
    Prepare,
    /// Calls the function at the operand.
    Call(Operand),
    /// Calls the function at the address.
    CallAddress,
    /// Returns from a function.
    Return,
}

/// The table of operations, each at the place of its opcode's code.
static TABLE: [Operation; 54] = [
    Operation::Halt,
    Operation::CallSystem,
    Operation::Combine(Combination::Sum, Operand::Source),
    Operation::Combine(Combination::Sum, Operand::Immediate),
    Operation::Combine(Combination::Difference, Operand::Source),
    Operation::Combine(Combination::Difference, Operand::Immediate),
    Operation::Multiply(Operand::Source),
    Operation::Multiply(Operand::Immediate),
    Operation::Divide(Operand::Source),
    Operation::Divide(Operand::Immediate),
    Operation::Invert,
    Operation::Shift(Direction::Left, Operand::Source),
    Operation::Shift(Direction::Left, Operand::Immediate),
    Operation::Shift(Direction::Right, Operand::Source),
    Operation::Shift(Direction::Right, Operand::Immediate),
    Operation::Combine(Combination::And, Operand::Source),
    Operation::Combine(Combination::And, Operand::Immediate),
    Operation::Combine(Combination::Or, Operand::Source),
    Operation::Combine(Combination::Or, Operand::Immediate),
    Operation::Combine(Combination::Xor, Operand::Source),
    Operation::Combine(Combination::Xor, Operand::Immediate),
    Operation::MakeDouble(Operand::Source),
    Operation::MakeWord,
    Operation::Calculate(Calculation::Sum),
    Operation::Calculate(Calculation::Difference),
    Operation::Calculate(Calculation::Product),
    Operation::Calculate(Calculation::Quotient),
    Operation::Compare(Operand::Source),
    Operation::Compare(Operand::Immediate),
    Operation::CompareDoubles,
    Operation::Jump,
    Operation::JumpIf(Condition::NotEqual),
    Operation::JumpIf(Condition::Equal),
    Operation::JumpIf(Condition::LessOrEqual),
    Operation::JumpIf(Condition::Less),
    Operation::JumpIf(Condition::GreaterOrEqual),
    Operation::JumpIf(Condition::Greater),
    Operation::Push,
    Operation::Pop,
    Operation::Set(Operand::Immediate),
    Operation::Set(Operand::Address),
    Operation::Set(Operand::Source),
    Operation::Load(Operand::Address),
    Operation::LoadPair(Operand::Address),
    Operation::Store(Operand::Address),
    Operation::StorePair(Operand::Address),
    Operation::Load(Operand::Source),
    Operation::LoadPair(Operand::Source),
    Operation::Store(Operand::Source),
    Operation::StorePair(Operand::Source),
    Operation::Prepare,
    Operation::Call(Operand::Source),
    Operation::CallAddress,
    Operation::Return,
];

impl Operation {
    /// What an opcode does.
    pub(crate) fn of(opcode: Opcode) -> Operation
        ensures value { result ≡ operation_of opcode }
        ensures form { IfSome (operand_of result) (λ o. o ≡ operand_in (form_of opcode)) }
    {
        TABLE[opcode as usize]
    }
}
