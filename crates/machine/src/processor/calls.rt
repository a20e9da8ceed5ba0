//! Reading and changing a processor. Each change touches one part.

ghost use Rattle.std.specs.Prelude.{◌≡◌, ℕ, ◌<◌, ◌^◌, slice_index};
ghost use Rattle.host.specs.Meaning.{Meaning};
ghost use Rattle.machine.specs.Cores.{core_of, new_core, in_register, in_pair, with_register, with_pair, with_flags, advanced};
ghost use Rattle.machine.specs.Sequences.{IsLawful};
ghost use Rattle.machine.specs.Step.{state};

use crate::flags::Flags;
use crate::pair::Pair;
use crate::processor::Processor;
use integers::pair::join;
use isa::register::Register;

/// The frame pointer.
pub(crate) const R13: Register = Register { number: 13 };

/// The stack pointer.
pub(crate) const R14: Register = Register { number: 14 };

/// The instruction pointer.
pub(crate) const R15: Register = Register { number: 15 };

/// Each number in a slice has 32 bits, as its type says. Nothing is done.
fn are_words(numbers: &[u32])
    ensures { (k : ℕ) → slice_index numbers.now k < 2 ^ 32 }
{}

impl Processor {
    /// A processor with 0 in each register and in the flags.
    pub fn new() -> Processor
        ensures { core_of result ≡ new_core }
    {
        Processor {
            registers: [0; 16],
            flags: Flags::new(),
        }
    }

    /// What a register holds.
    pub fn register(&self, register: Register) -> u32
        ensures { result ≡ in_register (core_of self.now) register.number }
    {
        self.registers[usize::from(register.number)]
    }

    /// What a pair of registers holds.
    pub(crate) fn pair(&self, pair: Pair) -> u64
        ensures { result ≡ in_pair (core_of self.now) pair.low.number }
    {
        join(self.register(pair.low()), self.register(pair.high()))
    }

    /// The flags.
    pub fn flags(&self) -> Flags
        ensures { result.value ≡ (core_of self.now).flags }
    {
        self.flags
    }

    /// Sets one register.
    pub fn set_register(&mut self, register: Register, value: u32)
        ensures { core_of self.new ≡ with_register register.number value (core_of self.old) }
    {
        let place = usize::from(register.number);
        self.registers[place] = value;
    }

    /// Sets a pair of registers to the halves of a number, the low half first.
    pub(crate) fn set_pair(&mut self, pair: Pair, halves: (u32, u32))
        ensures { core_of self.new ≡ with_pair pair.low.number halves (core_of self.old) }
    {
        let (low, high) = halves;
        self.set_register(pair.low(), low);
        self.set_register(pair.high(), high);
    }

    /// Sets the flags.
    pub fn set_flags(&mut self, flags: Flags)
        ensures { core_of self.new ≡ with_flags flags.value (core_of self.old) }
    {
        self.flags = flags;
    }

    /// Moves the instruction pointer to the next word.
    pub(crate) fn advance(&mut self)
        ensures { core_of self.new ≡ advanced (core_of self.old) }
    {
        self.set_register(R15, self.register(R15).wrapping_add(1));
    }

    /// A processor and a memory hold words, as their types say. Nothing is done.
    pub(crate) fn holds_words(&self, cells: &[u32])
        ensures { (m : Meaning) → IsLawful (state (core_of self.now) cells.now m) }
    {
        are_words(&self.registers);
        are_words(cells);
    }
}
