//! A new machine, and looks at one.

ghost use Rattle.std.specs.Prelude.{◌≡◌, ◌/◌, ◌^◌, ◌<◌, ◌≤◌, length};
ghost use Rattle.executable.specs.Check.{contents};
ghost use Rattle.runs.specs.Machines.{machine_of, new_machine};
ghost use Rattle.runs.specs.Looks.{register_seen, cell_seen};
ghost use Rattle.runs.specs.Questions.{register_asks, cell_asks, FirstNo};

use crate::loaded::Machine;
use crate::refusal::CallRefusal;
use executable::parts::Executable;
use isa::register::Register;
use machine::layout::Layout;
use machine::processor::Processor;

impl Machine {
    /// The machine of an executable, with a memory of some size.
    pub(crate) fn new(executable: &Executable<'_>, size: usize) -> Machine
        requires large { 1024 ≤ size }
        requires code { length executable.now.code.now / 4 < 2 ^ 32 }
        requires constants { length executable.now.constants.now / 4 < 2 ^ 32 }
        ensures { machine_of result ≡ new_machine (contents executable.now) size }
    {
        let mut processor = Processor::new();
        processor.set_register(Register { number: 14 }, executable.stack);
        processor.set_register(Register { number: 15 }, executable.first);
        Machine {
            processor,
            layout: Layout {
                code: (executable.code.len() / 4) as u32,
                constants: (executable.constants.len() / 4) as u32,
                stack: executable.stack,
            },
            size,
            exited: false,
        }
    }

    /// What a register holds.
    pub fn register(&self, number: u64) -> Result<u32, CallRefusal>
        ensures value { result ≡ register_seen (machine_of self.now) number }
        ensures first { FirstNo (register_asks number) result }
    {
        let number = u8::try_from(number).map_err(|_| CallRefusal::OutOfRange)?;
        let register = Register::new(number).ok_or(CallRefusal::OutOfRange)?;
        Ok(self.processor.register(register))
    }

    /// What the flags hold.
    pub fn flags(&self) -> u8
        ensures { result ≡ (machine_of self.now).core.flags }
    {
        self.processor.flags().value()
    }

    /// What a cell of its memory holds.
    pub fn cell(&self, cells: &[u32], number: u64) -> Result<u32, CallRefusal>
        ensures value { result ≡ cell_seen (machine_of self.now) cells.now number }
        ensures first { FirstNo (cell_asks (machine_of self.now) cells.now number) result }
    {
        if cells.len() != self.size {
            return Err(CallRefusal::OtherMemory);
        }
        usize::try_from(number)
            .ok()
            .and_then(|place| cells.get(place))
            .copied()
            .ok_or(CallRefusal::OutOfRange)
    }
}
