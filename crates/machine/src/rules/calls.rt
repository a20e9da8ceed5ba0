//! The questions that a permit answers.

ghost use Rattle.std.specs.Prelude.{◌≡◌, ◌<◌, IfOk};
ghost use Rattle.permit.specs.Levels as levels;
ghost use Rattle.machine.specs.Rules.{rules_of, cell_level, allows, cell_asked, push_asked, register_asked, pair_asked};
ghost use Rattle.machine.specs.declared.access.Access.TheVariants.{Reading, Writing};

use crate::access::Access;
use crate::cause::Cause;
use crate::pair::Pair;
use crate::rules::Rules;
use executable::segment::Segment;
use isa::register::Register;
use permit::level::Level;

/// Whether a level allows an access.
fn allows(level: Level, access: Access) -> bool
    ensures { result ≡ allows access (levels.number_of level) }
{
    match access {
        Access::Reading => level.allows_reading(),
        Access::Writing => level.allows_writing(),
    }
}

impl Rules<'_> {
    /// Question 34 of a register.
    fn access(&self, access: Access, register: Register) -> Result<(), Cause>
        ensures { result ≡ register_asked (rules_of self.now) access register.number }
    {
        if allows(self.permit.register_level(register), access) {
            Ok(())
        } else {
            Err(Cause::Register)
        }
    }

    /// Question 34 of a register that is read.
    pub(crate) fn read(&self, register: Register) -> Result<(), Cause>
        ensures { result ≡ register_asked (rules_of self.now) Reading register.number }
    {
        self.access(Access::Reading, register)
    }

    /// Question 34 of a register that is written.
    pub(crate) fn write(&self, register: Register) -> Result<(), Cause>
        ensures { result ≡ register_asked (rules_of self.now) Writing register.number }
    {
        self.access(Access::Writing, register)
    }

    /// Question 34 of a pair that is read.
    pub(crate) fn read_pair(&self, pair: Pair) -> Result<(), Cause>
        ensures { result ≡ pair_asked (rules_of self.now) Reading pair.low.number }
    {
        self.read(pair.low())?;
        self.read(pair.high())
    }

    /// Question 34 of a pair that is written.
    pub(crate) fn write_pair(&self, pair: Pair) -> Result<(), Cause>
        ensures { result ≡ pair_asked (rules_of self.now) Writing pair.low.number }
    {
        self.write(pair.low())?;
        self.write(pair.high())
    }

    /// The level of a cell: that of its segment. What is neither code nor constants is open.
    fn cell_level(&self, cell: usize) -> Level
        ensures { levels.number_of result ≡ cell_level (rules_of self.now) cell }
    {
        let code = self.layout.code as usize;
        let constants = self.layout.constants as usize;
        if cell < code {
            self.permit.segment_level(Segment::Code)
        } else if cell < code + constants {
            self.permit.segment_level(Segment::Constants)
        } else {
            Level::Open
        }
    }

    /// Questions 39 and 40 of a cell, in a memory of so many.
    pub(crate) fn cell(&self, size: usize, access: Access, cell: usize) -> Result<(), Cause>
        ensures value { result ≡ cell_asked (rules_of self.now) size access cell }
        ensures inside { IfOk result (λ _. cell < size) }
    {
        if cell >= size {
            return Err(Cause::Cell);
        }
        if allows(self.cell_level(cell), access) {
            Ok(())
        } else {
            Err(Cause::Segment)
        }
    }

    /// Questions 39 to 41 of a cell that a push writes.
    pub(crate) fn push(&self, size: usize, cell: usize) -> Result<(), Cause>
        ensures value { result ≡ push_asked (rules_of self.now) size cell }
        ensures inside { IfOk result (λ _. cell < size) }
    {
        self.cell(size, Access::Writing, cell)?;
        let stack = self.layout.stack as usize;
        if cell <= stack && stack - cell >= self.permit.stack_maximum() as usize {
            return Err(Cause::Stack);
        }
        Ok(())
    }
}
