//! Files by their names.

use anyhow::Context;
use std::alloc::Global;
use std::fs;

/// A file that a command made.
#[derive(Drop)]
struct Made {
    name: String,
    bytes: Vec<u8>,
}

/// The files that commands made, the latest of a name last.
#[derive(Drop)]
pub(crate) struct Shelf {
    made: Vec<Made>,
}

impl Shelf {
    /// A shelf without files.
    pub(crate) fn new(heap: Global) -> Shelf {
        Shelf {
            made: Vec::new(heap),
        }
    }

    /// The bytes of a file: of that which was made last under the name, and else of that in the folder.
    pub(crate) fn read(&self, rt: &HostRuntime, name: &str) -> anyhow::Result<Vec<u8>> {
        for file in self.made.as_slice().iter().rev() {
            if file.name.as_str() == name {
                return Ok(Vec::from_slice(rt.alloc(), file.bytes.as_slice())?);
            }
        }
        fs::read(rt, name).context(name)
    }

    /// The bytes of a file that may be named; none where it is not.
    pub(crate) fn read_if_named(
        &self,
        rt: &HostRuntime,
        name: Option<&str>,
    ) -> anyhow::Result<Vec<u8>> {
        match name {
            Some(name) => self.read(rt, name),
            None => Ok(Vec::new(rt.alloc())),
        }
    }

    /// Keeps a file that a command made, and tells so.
    pub(crate) fn keep(
        &mut self,
        rt: &HostRuntime,
        name: &str,
        bytes: &[u8],
    ) -> anyhow::Result<()> {
        let length = bytes.len();
        println!(rt; "({name} is made: {length} bytes)")?;
        self.made.push(Made {
            name: String::from_str(rt.alloc(), name)?,
            bytes: Vec::from_slice(rt.alloc(), bytes)?,
        })?;
        Ok(())
    }
}
