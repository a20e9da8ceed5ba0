//! Runs the table of host cases on standard input. Each line is a case:
//!
//! ```text
//! NAME tape|sheet WRITES ROOM INPUT CALL..
//! NAME counting NEXT END CALL..
//! ```
//!
//! WRITES is the number of writes that is asked for, ROOM the length of the output that is lent (bytes or records), and
//! INPUT what waits: the bytes of a tape in hexadecimal, or the records of a sheet as KIND:VALUE (decimal and hexadecimal)
//! with commas between them, or `-` for nothing. A counting host gives the numbers from NEXT up to, and without, END, both
//! in decimal. A call `number`, `real` or `character` gets an item of that kind; `number=X` and so on writes one, with X in
//! hexadecimal. For each case it prints whether there is room, what each call answered and what was written, and of a
//! tape or a sheet whether the output past it is as it was.
//!
//! Another word in place of `tape`, `sheet` and `counting` stands for `sheet`, and a last odd digit of a tape is
//! dropped. Any other mistake in a line is an error, which ends the program: before the line's name is printed where a
//! word before the calls is missing or a number there is wrong, else when the input or the call is come to, after what
//! precedes it.

#![tactic(auto)]

mod call;
mod case;
mod run;
mod sheet_units;
mod tape_units;
mod units;

use run::run_line;
use std::io::{BufRead, BufReader};

fn main(rt: HostRuntime) -> anyhow::Result<()> {
    for line in BufReader::new(rt.alloc(), rt.stdin())?.lines(rt.alloc()) {
        let text = line?;
        run_line(&rt, text.as_str())?;
    }
    Ok(())
}
