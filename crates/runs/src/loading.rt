//! Loading an executable into a lent memory.

ghost use Rattle.std.specs.Prelude.{◌≡◌, length, IfErr, IfOk, Err, Ok};
ghost use Rattle.runs.specs.Machines.{machine_of};
ghost use Rattle.executable.specs.Check.{contents};
ghost use Rattle.runs.specs.Loading.{loaded, shown, cells_after, fill, memory_fits, Admits, Fits, IsInside, LoadsFirstNo};

use crate::loaded::Machine;
use crate::refusal::LoadRefusal;
use executable::check::check;
use executable::parts::Executable;
use executable::word::word_at;

/// Question 29 of an executable and a memory of some size.
fn memory_fits(executable: &Executable<'_>, size: usize) -> bool
    ensures { result ≡ memory_fits (contents executable.now) size }
{
    let words = executable.code.len() / 4 + executable.constants.len() / 4;
    (1_024..=1_048_576).contains(&size)
        && words <= size
        && (executable.first as usize) < size
        && (executable.stack as usize) < size
}

/// Writes words of 4 bytes to the cells from the first one on, and zeros after them.
fn fill(words: &[u8], cells: &mut [u32])
    ensures { cells.new ≡ fill words.now (length cells.old) }
{
    for (index, cell) in cells.iter_mut().enumerate() {
        *cell = word_at(words, index).unwrap_or(0);
    }
}

/// The parts of an executable that fits into a memory of some size, or the first question about them with a no.
pub(crate) fn admit(bytes: &[u8], size: usize) -> Result<Executable<'_>, LoadRefusal>
    ensures value { Admits bytes.now size result }
    ensures first { IfErr result (λ q. LoadsFirstNo bytes.now size (Err q)) }
{
    let executable = check(bytes)?;
    if !memory_fits(&executable, size) {
        return Err(LoadRefusal::Memory);
    }
    Ok(executable)
}

impl Machine {
    /// Fills a memory with an executable that fits into it, and gives its machine.
    pub(crate) fn fill_with(bytes: &[u8], executable: &Executable<'_>, cells: &mut [u32]) -> Machine
        requires { Fits bytes.now (length cells.old) (contents executable.now) }
        ensures value { loaded bytes.now (length cells.old) ≡ Ok (machine_of result) }
        ensures cells { cells.new ≡ cells_after bytes.now cells.old }
    {
        fill(&bytes[512..], cells);
        Machine::new(executable, cells.len())
    }

    /// Loads an executable: code and constants go to the cells from 0 on, and zeros after them. A refusal writes
    /// nothing.
    pub fn load(bytes: &[u8], cells: &mut [u32]) -> Result<Machine, LoadRefusal>
        ensures value { shown result ≡ loaded bytes.now (length cells.old) }
        ensures cells { cells.new ≡ cells_after bytes.now cells.old }
        ensures inside { IfOk result (λ m. IsInside (machine_of m)) }
        ensures first { LoadsFirstNo bytes.now (length cells.old) (shown result) }
    {
        let executable = admit(bytes, cells.len())?;
        Ok(Machine::fill_with(bytes, &executable, cells))
    }
}
