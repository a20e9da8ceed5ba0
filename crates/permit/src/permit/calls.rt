//! Reading and changing a permit. Each change touches one part.

ghost use Rattle.std.specs.Prelude.{◌≡◌, ℕ, ◌<◌, ◌≤◌, Decides, slice_index_or};
ghost use Rattle.permit.specs.Levels.{number_of};
ghost use Rattle.permit.specs.Open.{AsOpen};
ghost use Rattle.permit.specs.Rights.{rights_of, new_rights, register_level, segment_level, register_in_range, segment_in_range, stack_in_range, register_set, segment_set, stack_set, answer};

use crate::level::Level;
use crate::permit::Permit;
use crate::refusal::Refusal;
use executable::segment::Segment;
use isa::register::Register;

/// Whether each of 16 levels is at least as open as the other at its place.
fn are_open(levels: &[Level; 16], others: &[Level; 16]) -> bool
    ensures { Decides result ((k : ℕ) → k < 16 → number_of (slice_index_or levels.now k Level.Open) ≤ number_of (slice_index_or others.now k Level.Open)) }
{
    levels
        .iter()
        .zip(others)
        .all(|(level, other)| level <= other)
}

impl Permit {
    /// A new permit: all open, and the largest maximum.
    pub fn new() -> Permit
        ensures { rights_of result ≡ new_rights }
    {
        Permit {
            registers: [Level::Open; 16],
            code: Level::Open,
            constants: Level::Open,
            stack: 1_048_576,
        }
    }

    /// The level of a register.
    pub fn register_level(&self, register: Register) -> Level
        ensures { number_of result ≡ register_level (rights_of self.now) register.number }
    {
        self.registers[usize::from(register.number)]
    }

    /// The level of a segment.
    pub fn segment_level(&self, segment: Segment) -> Level
        ensures { number_of result ≡ segment_level (rights_of self.now) segment }
    {
        match segment {
            Segment::Code => self.code,
            Segment::Constants => self.constants,
        }
    }

    /// The stack's maximum in words.
    pub fn stack_maximum(&self) -> u32
        ensures { result ≡ (rights_of self.now).stack }
    {
        self.stack
    }

    /// Sets the level of a register, both by their numbers.
    pub fn set_register(&mut self, register: u64, level: u64) -> Result<(), Refusal>
        ensures value { result ≡ answer (register_in_range register level) }
        ensures after { rights_of self.new ≡ register_set register level (rights_of self.old) }
    {
        let target = Register::new(register.try_into()?).ok_or(Refusal::OutOfRange)?;
        self.registers[usize::from(target.number)] = Level::try_from(level)?;
        Ok(())
    }

    /// Sets the level of a segment, both by their numbers: 0 is the code, 1 the constants.
    pub fn set_segment(&mut self, segment: u64, level: u64) -> Result<(), Refusal>
        ensures value { result ≡ answer (segment_in_range segment level) }
        ensures after { rights_of self.new ≡ segment_set segment level (rights_of self.old) }
    {
        let level = Level::try_from(level)?;
        match segment {
            0 => self.code = level,
            1 => self.constants = level,
            _ => return Err(Refusal::OutOfRange),
        }
        Ok(())
    }

    /// Sets the stack's maximum.
    pub fn set_stack(&mut self, words: u64) -> Result<(), Refusal>
        ensures value { result ≡ answer (stack_in_range words) }
        ensures after { rights_of self.new ≡ stack_set words (rights_of self.old) }
    {
        let words = u32::try_from(words)?;
        if words > 1_048_576 {
            return Err(Refusal::OutOfRange);
        }
        self.stack = words;
        Ok(())
    }

    /// Whether this permit is at least as open as another: each of its levels is the same or lower, and its maximum the
    /// same or larger.
    pub fn is_as_open_as(&self, other: &Permit) -> bool
        ensures { Decides result (AsOpen (rights_of other.now) (rights_of self.now)) }
    {
        self.code <= other.code
            && self.constants <= other.constants
            && self.stack >= other.stack
            && are_open(&self.registers, &other.registers)
    }
}
