//! What the options of a command line ask of a run.

ghost use Rattle.std.specs.Prelude.{◌≡◌};
ghost use Rattle.run_replies.specs.Asked.{extras_asked, wishes_asked};
ghost use Rattle.run_replies.specs.Wishes.{wishes_of};

use crate::running::Extras;
use crate::wishes::Wishes;
use command_line::options::Options;

/// How many steps, cells and writes a run gets where no option says otherwise.
const STEPS: u64 = 100_000_000;

const CELLS: u64 = 1_048_576;

const WRITES: u64 = 65_536;

/// What is asked of the run of an executable over its readings.
pub fn wishes_asked<'a>(
    executable: &'a [u8],
    readings: &'a [u8],
    options: &Options<'_>,
) -> Wishes<'a>
    ensures { wishes_of result ≡ wishes_asked executable.now readings.now options.now.budget options.now.cells options.now.writes }
{
    Wishes {
        executable,
        readings,
        budget: options.budget.unwrap_or(STEPS),
        cells: options.cells.unwrap_or(CELLS),
        writes: options.writes.unwrap_or(WRITES),
    }
}

/// What is to be told of a run besides its outcome.
pub fn extras_asked(options: &Options<'_>) -> Extras
    ensures { result ≡ extras_asked options.now.trace options.now.dump }
{
    Extras {
        trace: options.trace.unwrap_or(0),
        dump: options.dump,
    }
}
