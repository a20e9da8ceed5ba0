//! Files, read and written whole.

use anyhow::Context;
use std::fs;
use std::fs::File;
use std::io::Write;

/// The bytes of a file.
pub(crate) fn read(rt: &HostRuntime, name: &str) -> anyhow::Result<Vec<u8>> {
    fs::read(rt, name).context(name)
}

/// The bytes of a file that may be named; none where it is not.
pub(crate) fn read_if_named(rt: &HostRuntime, name: Option<&str>) -> anyhow::Result<Vec<u8>> {
    match name {
        Some(name) => read(rt, name),
        None => Ok(Vec::new(rt.alloc())),
    }
}

/// Writes bytes to a new file and brings them to the disk.
fn write_new(rt: &HostRuntime, name: &str, bytes: &[u8]) -> anyhow::Result<()> {
    let mut file = File::create(rt, name)?;
    file.write_all(bytes)?;
    file.sync_all()?;
    Ok(())
}

/// Writes a file: first beside it, under its name with `.part` behind it, and only when all of it is there in its place.
pub(crate) fn write(rt: &HostRuntime, name: &str, bytes: &[u8]) -> anyhow::Result<()> {
    let part = format!(in rt.alloc(); "{name}.part")?;
    if let Err(error) = write_new(rt, part.as_str(), bytes) {
        let _ = fs::remove_file(rt, part.as_str());
        return Err(error).context(name);
    }
    fs::rename(rt, part.as_str(), name).context(name)
}

/// The name of a file in a folder.
pub(crate) fn inside(rt: &HostRuntime, folder: &str, name: &str) -> anyhow::Result<String> {
    Ok(format!(in rt.alloc(); "{folder}/{name}")?)
}

/// Writes bytes to standard output.
pub(crate) fn print(rt: &HostRuntime, bytes: &[u8]) -> anyhow::Result<()> {
    rt.stdout().write_all(bytes)?;
    Ok(())
}
