//! Each page once.

use crate::dump::dump_page;
use crate::ending::ending_line;
use crate::fault::fault_page;
use crate::run::run_page;
use crate::step::Step;
use crate::steps::steps_page;
use machine::cause::Cause;
use machine::fault::Fault;
use runs::loaded::Machine;
use runs::report::{Ending, Report};
use std::alloc::Global;
use std::test::Fail;

/// `jmp 0`.
const JUMP: u32 = 0x1E00_0000;

/// `lc r3 5`.
const CONSTANT: u32 = 0x2730_0005;

/// A machine without code and constants, with first instruction 2 and stack pointer 9.
fn machine() -> Result<Machine, Fail> {
    let mut bytes = [0u8; 512];
    bytes[..15].copy_from_slice(b"ThisIsKarmaExec");
    bytes[24] = 2;
    bytes[28] = 9;
    bytes[32] = 239;
    let mut cells = [0u32; 1024];
    let machine = Machine::load(&bytes, &mut cells).ok();
    Ok(machine.ok_or("the executable is refused")?)
}

/// A step that sets r3 and the flags, and one that changes nothing.
fn steps() -> [Step; 2] {
    let mut after = [0u32; 16];
    after[3] = 5;
    after[15] = 1;
    let first = Step {
        number: 1,
        address: 0,
        word: CONSTANT,
        before: [0; 16],
        after,
        flags_before: 0,
        flags_after: 2,
    };
    let second = Step {
        number: 2,
        address: 1,
        word: JUMP,
        before: after,
        after,
        flags_before: 2,
        flags_after: 2,
    };
    [first, second]
}

/// What each page says, and what it is to say.
fn pages(heap: Global) -> Result<[(Vec<u8>, &'static [u8]); 5], Fail> {
    let fault = Fault {
        cause: Cause::Cell,
        address: 7,
    };
    let report = Report {
        steps: 35,
        ending: Ending::Fault(fault),
    };
    Ok([
        (
            ending_line(heap, Ending::Exited(7))?.into_bytes(),
            b"ending exited 7\n",
        ),
        (
            run_page(heap, report, 12, 1)?.into_bytes(),
            b"ending fault 39 address 7 layer machine\nsteps 35\ntaken 12\nwritten 1\n",
        ),
        (
            fault_page(heap, fault, Some(CONSTANT))?,
            b"question 39 got a no: is the cell, or the target of the call, inside memory?\ncommand at 7: lc r3 5\n",
        ),
        (
            dump_page(heap, &machine()?)?.into_bytes(),
            b"r0 0\nr1 0\nr2 0\nr3 0\nr4 0\nr5 0\nr6 0\nr7 0\nr8 0\nr9 0\nr10 0\nr11 0\nr12 0\nr13 0\nr14 9\nr15 2\nflags 0\n",
        ),
        (
            steps_page(heap, &steps())?,
            b"step 1 address 0 lc r3 5: r3 0 -> 5, r15 0 -> 1, flags 0 -> 2\nstep 2 address 1 jmp 0: nothing changed\n",
        ),
    ])
}

#[test]
fn each_page(rt: HostRuntime) -> Result<(), Fail> {
    for (page, text) in pages(rt.alloc())? {
        assert!(rt; page.as_slice() == text);
    }
    Ok(())
}
