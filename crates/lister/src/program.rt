//! The program, over any input and output.

ghost use Rattle.std.specs.Prelude.{◌≡◌, ◌≤◌, length, take, IfOk, IfSome};

use anyhow::bail;
use listing::printout::printout;
use std::alloc::Global;
use std::io;
use std::io::{BufReader, Read, Write};

/// One byte more than the program takes, so that a longer input is seen to be longer.
const LIMIT: u64 = 8193;

/// Reads an input, and of a long one the first `LIMIT` bytes. Each read asks for all that is left of these: an input
/// that gives messages loses what is not asked for of one.
fn read_input<R: Read>(heap: Global, input: &mut R) -> io::Result<Vec<u8>>
    ensures front { IfOk result (λ bytes. IfSome (R.remaining input.old) (λ all. bytes.items ≡ take LIMIT all)) }
    ensures within { IfOk result (λ bytes. length bytes.items ≤ 8193) }
{
    let mut reader = BufReader::with_capacity(heap, LIMIT as usize, input.take(LIMIT))?;
    let mut bytes = Vec::new(heap);
    reader.read_to_end(&mut bytes)?;
    // `take` gives no more, but its contract says so of known bytes alone.
    bytes.truncate(LIMIT as usize);
    Ok(bytes)
}

/// Prints the listing of an input. A refusal is printed too, and makes the program fail.
pub(crate) fn run<R: Read, W: Write>(
    heap: Global,
    input: &mut R,
    output: &mut W,
) -> anyhow::Result<()> {
    let bytes = read_input(heap, input)?;
    let printed = printout(heap, bytes.as_slice())?;
    output.write_all(printed.text())?;
    if printed.is_refused() {
        bail!("refused");
    }
    Ok(())
}
