//! The page of what a machine holds.

ghost use Rattle.std.specs.Prelude.{◌≡◌, ◌<◌, IfOk, string_bytes};
ghost use Rattle.machine.specs.Cores.{in_register};
ghost use Rattle.run_pages.specs.Dumps.{register_line, dump_page};
ghost use Rattle.runs.specs.Machines.{machine_of};

use runs::loaded::Machine;
use std::alloc::{AllocError, Global};

/// What one of the registers 0 to 15 holds.
fn register_value(machine: &Machine, number: u64) -> u32
    requires { number < 16 }
    ensures { result ≡ in_register (machine_of machine.now).core number }
{
    machine.register(number).unwrap()
}

/// The line of one of the registers 0 to 15.
fn register_line(heap: Global, machine: &Machine, number: u64) -> Result<String, AllocError>
    requires { number < 16 }
    ensures { IfOk result (λ s. string_bytes s ≡ register_line (machine_of machine.now).core number) }
{
    let value = register_value(machine, number);
    format!(in heap; "r{number} {value}\n")
}

/// The page of what a machine holds: its registers and its flags, in decimal.
pub fn dump_page(heap: Global, machine: &Machine) -> Result<String, AllocError>
    ensures { IfOk result (λ s. string_bytes s ≡ dump_page (machine_of machine.now)) }
{
    let mut page = String::new(heap);
    for number in 0..16 {
        let line = register_line(heap, machine, number)?;
        page.push_str(line.as_str())?;
    }
    let flags = machine.flags();
    format!(in heap; "{page}flags {flags}\n")
}
