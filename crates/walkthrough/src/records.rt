//! The commands file and replay.

use crate::shelf::Shelf;
use crate::watching::Teller;
use record::contents::Contents;
use record::file::{Inputs, Made};
use record_replies::names::{EXECUTABLE, LISTING, PAGE, PERMIT, READINGS, RESULTS};
use record_replies::preamble::PREAMBLE;
use record_replies::{filing, replaying};
use reply::reply::Reply;

/// Reads a file of a record.
fn read_in(rt: &HostRuntime, shelf: &Shelf, record: &str, name: &str) -> anyhow::Result<Vec<u8>> {
    let path = format!(in rt.alloc(); "{record}/{name}")?;
    shelf.read(rt, path.as_str())
}

/// Writes a file of a record.
fn write_in(
    rt: &HostRuntime,
    shelf: &mut Shelf,
    record: &str,
    name: &str,
    bytes: &[u8],
) -> anyhow::Result<()> {
    let path = format!(in rt.alloc(); "{record}/{name}")?;
    shelf.keep(rt, path.as_str(), bytes)
}

/// Keeps the files of a record; the page comes last.
fn write_record(
    rt: &HostRuntime,
    shelf: &mut Shelf,
    record: &str,
    inputs: &Inputs<'_>,
    made: &Made,
) -> anyhow::Result<()> {
    write_in(rt, shelf, record, EXECUTABLE, made.executable.as_slice())?;
    write_in(rt, shelf, record, LISTING, made.listing.as_slice())?;
    write_in(rt, shelf, record, READINGS, inputs.readings)?;
    write_in(rt, shelf, record, RESULTS, made.played.results.as_slice())?;
    write_in(rt, shelf, record, PERMIT, inputs.permit)?;
    write_in(rt, shelf, record, PAGE, made.page.as_slice())
}

/// Makes a record of a source, a tape of readings and a permit.
pub(crate) fn file(
    rt: &HostRuntime,
    shelf: &mut Shelf,
    record: &str,
    source: &str,
    readings: &str,
    permit: &str,
) -> anyhow::Result<Reply> {
    let (text, tape, rights) = (
        shelf.read(rt, source)?,
        shelf.read(rt, readings)?,
        shelf.read(rt, permit)?,
    );
    let inputs = Inputs {
        source: text.as_slice(),
        readings: tape.as_slice(),
        permit: rights.as_slice(),
        preamble: PREAMBLE.as_bytes(),
    };
    let filing = filing::file(rt.alloc(), &inputs, permit, &mut Teller { rt })?;
    if let Some(made) = &filing.made {
        write_record(rt, shelf, record, &inputs, made)?;
    }
    Ok(filing.reply)
}

/// Opens a record.
pub(crate) fn replay(rt: &HostRuntime, shelf: &Shelf, record: &str) -> anyhow::Result<Reply> {
    let executable = read_in(rt, shelf, record, EXECUTABLE)?;
    let listing = read_in(rt, shelf, record, LISTING)?;
    let readings = read_in(rt, shelf, record, READINGS)?;
    let results = read_in(rt, shelf, record, RESULTS)?;
    let permit = read_in(rt, shelf, record, PERMIT)?;
    let page = read_in(rt, shelf, record, PAGE)?;
    let contents = Contents {
        executable: executable.as_slice(),
        listing: listing.as_slice(),
        readings: readings.as_slice(),
        results: results.as_slice(),
        permit: permit.as_slice(),
        page: page.as_slice(),
    };
    Ok(replaying::replay(rt.alloc(), &contents, &mut Teller { rt })?)
}
