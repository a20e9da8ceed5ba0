//! The commands file and replay.

use crate::files::{inside, read, write};
use crate::watching::Teller;
use anyhow::Context;
use record::contents::Contents;
use record::file::{Inputs, Made};
use record_replies::names::{EXECUTABLE, LISTING, PAGE, PERMIT, READINGS, RESULTS};
use record_replies::preamble::PREAMBLE;
use record_replies::{filing, replaying};
use reply::reply::Reply;
use std::fs;

/// Reads a file of a record.
fn read_in(rt: &HostRuntime, record: &str, name: &str) -> anyhow::Result<Vec<u8>> {
    let path = inside(rt, record, name)?;
    read(rt, path.as_str())
}

/// Writes a file of a record.
fn write_in(rt: &HostRuntime, record: &str, name: &str, bytes: &[u8]) -> anyhow::Result<()> {
    let path = inside(rt, record, name)?;
    write(rt, path.as_str(), bytes)
}

/// Makes the folder of a record and writes its files; the page comes last.
fn write_record(
    rt: &HostRuntime,
    record: &str,
    inputs: &Inputs<'_>,
    made: &Made,
) -> anyhow::Result<()> {
    fs::create_dir(rt, record).context(record)?;
    write_in(rt, record, EXECUTABLE, made.executable.as_slice())?;
    write_in(rt, record, LISTING, made.listing.as_slice())?;
    write_in(rt, record, READINGS, inputs.readings)?;
    write_in(rt, record, RESULTS, made.played.results.as_slice())?;
    write_in(rt, record, PERMIT, inputs.permit)?;
    write_in(rt, record, PAGE, made.page.as_slice())
}

/// Makes a record of a source, a tape of readings and a permit.
pub(crate) fn file(
    rt: &HostRuntime,
    record: &str,
    source: &str,
    readings: &str,
    permit: &str,
) -> anyhow::Result<Reply> {
    let (text, tape, rights) = (read(rt, source)?, read(rt, readings)?, read(rt, permit)?);
    let inputs = Inputs {
        source: text.as_slice(),
        readings: tape.as_slice(),
        permit: rights.as_slice(),
        preamble: PREAMBLE.as_bytes(),
    };
    let mut teller = Teller {
        rt,
        readings: tape.as_slice(),
        quiet: false,
    };
    let filing = filing::file(rt.alloc(), &inputs, permit, &mut teller)?;
    if let Some(made) = &filing.made {
        write_record(rt, record, &inputs, made).context("the record is not complete")?;
    }
    Ok(filing.reply)
}

/// Opens a record.
pub(crate) fn replay(rt: &HostRuntime, record: &str) -> anyhow::Result<Reply> {
    let executable = read_in(rt, record, EXECUTABLE)?;
    let listing = read_in(rt, record, LISTING)?;
    let readings = read_in(rt, record, READINGS)?;
    let results = read_in(rt, record, RESULTS)?;
    let permit = read_in(rt, record, PERMIT)?;
    let page = read_in(rt, record, PAGE)?;
    let contents = Contents {
        executable: executable.as_slice(),
        listing: listing.as_slice(),
        readings: readings.as_slice(),
        results: results.as_slice(),
        permit: permit.as_slice(),
        page: page.as_slice(),
    };
    let mut teller = Teller {
        rt,
        readings: contents.readings,
        quiet: false,
    };
    Ok(replaying::replay(rt.alloc(), &contents, &mut teller)?)
}
