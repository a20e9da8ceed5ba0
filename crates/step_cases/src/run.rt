//! Running a case.

use crate::case::{Case, read_case};
use crate::setup::Setup;
use crate::show::{show_cells, show_ending, show_registers, show_waiting, show_written};
use host::host::Host;
use host::tape::Tape;
use machine::fault::Fault;
use machine::processor::Processor;
use machine::rules::Rules;
use machine::turn::Turn;

/// How the last step of a case ended, and how many were taken.
#[derive(Clone, Copy)]
pub(crate) struct Ending {
    pub(crate) steps: u32,
    pub(crate) last: Result<Turn, Fault>,
}

/// Runs the case of a line.
pub(crate) fn run_line(rt: &HostRuntime, line: &str) -> anyhow::Result<()> {
    let Case {
        name,
        layout,
        steps,
        setup,
    } = read_case(rt, line)?;
    let Setup {
        mut processor,
        mut cells,
        permit,
        input,
        writes,
    } = setup;
    let name = name.as_str();
    println!(rt; "{name}:")?;
    let before = processor;
    let cells_before = Vec::from_slice(rt.alloc(), cells.as_slice())?;
    let rules = Rules {
        permit: &permit,
        layout,
    };
    let mut output = vec![in rt.alloc(); 0u8; 900]?;
    let mut host = Tape::new(input.as_slice(), output.as_mut_slice(), writes);
    let ending = take_steps(
        &mut processor,
        &rules,
        cells.as_mut_slice(),
        &mut host,
        steps,
    );
    show_ending(rt, ending)?;
    show_registers(rt, &before, &processor)?;
    show_cells(rt, cells_before.as_slice(), cells.as_slice())?;
    show_written(rt, host.written())?;
    show_waiting(rt, &mut host)
}

/// Takes steps until one ends the run, or so many were taken.
fn take_steps<H: Host>(
    processor: &mut Processor,
    rules: &Rules<'_>,
    cells: &mut [u32],
    host: &mut H,
    most: u32,
) -> Ending {
    for steps in 0..most {
        match processor.step(rules, cells, host) {
            Ok(Turn::Next) => {}
            Ok(turn) => {
                return Ending {
                    steps: steps + 1,
                    last: Ok(turn),
                };
            }
            Err(fault) => {
                return Ending {
                    steps,
                    last: Err(fault),
                };
            }
        }
    }
    Ending {
        steps: most,
        last: Ok(Turn::Next),
    }
}
