//! The commands run and compare.

use crate::files::{read, read_if_named, write};
use crate::watching::Teller;
use command_line::options::Options;
use reply::named::Named;
use reply::reply::Reply;
use run_replies::asked::{extras_asked, wishes_asked};
use run_replies::{comparing, running};

/// A file that may be named, with its bytes.
fn named<'a>(name: Option<&'a str>, bytes: &'a [u8]) -> Option<Named<'a>> {
    match name {
        Some(name) => Some(Named { name, bytes }),
        None => None,
    }
}

/// Runs an executable, and writes the tape of its results where one is asked for.
pub(crate) fn run(
    rt: &HostRuntime,
    executable: &str,
    options: &Options<'_>,
) -> anyhow::Result<Reply> {
    let bytes = read(rt, executable)?;
    let readings = read_if_named(rt, options.readings)?;
    let text = read_if_named(rt, options.permit)?;
    let permit = named(options.permit, text.as_slice());
    let mut teller = Teller {
        rt,
        readings: readings.as_slice(),
        quiet: options.quiet,
    };
    let running = running::run(
        rt.alloc(),
        &wishes_asked(bytes.as_slice(), readings.as_slice(), options),
        permit,
        extras_asked(options),
        &mut teller,
    )?;
    if let (Some(name), Some(results)) = (options.results, &running.results) {
        write(rt, name, results.as_slice())?;
    }
    Ok(running.reply)
}

/// Runs an executable under two permits, and writes the tape of the results under the first where one is asked for.
pub(crate) fn compare(
    rt: &HostRuntime,
    executable: &str,
    first: &str,
    second: &str,
    options: &Options<'_>,
) -> anyhow::Result<Reply> {
    let bytes = read(rt, executable)?;
    let readings = read_if_named(rt, options.readings)?;
    let (text, other) = (read(rt, first)?, read(rt, second)?);
    let mut teller = Teller {
        rt,
        readings: readings.as_slice(),
        quiet: options.quiet,
    };
    let running = comparing::compare(
        rt.alloc(),
        &wishes_asked(bytes.as_slice(), readings.as_slice(), options),
        Named {
            name: first,
            bytes: text.as_slice(),
        },
        Named {
            name: second,
            bytes: other.as_slice(),
        },
        extras_asked(options),
        &mut teller,
    )?;
    if let (Some(name), Some(results)) = (options.results, &running.results) {
        write(rt, name, results.as_slice())?;
    }
    Ok(running.reply)
}
