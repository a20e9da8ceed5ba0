//! What a case begins with.

use anyhow::{Context, anyhow};
use isa::register::Register;
use machine::flags::Flags;
use machine::processor::Processor;
use permit::permit::Permit;
use std::cmp::Ordering;

/// The processor, the memory, the permit, and what the host is made of.
#[derive(Drop)]
pub(crate) struct Setup {
    pub(crate) processor: Processor,
    pub(crate) cells: Vec<u32>,
    pub(crate) permit: Permit,
    pub(crate) input: Vec<u8>,
    pub(crate) writes: usize,
}

impl Setup {
    /// Zeros everywhere, a new permit, and a host that gives and takes nothing.
    pub(crate) fn new(rt: &HostRuntime, size: usize) -> anyhow::Result<Setup> {
        Ok(Setup {
            processor: Processor::new(),
            cells: vec![in rt.alloc(); 0u32; size]?,
            permit: Permit::new(),
            input: Vec::new(rt.alloc()),
            writes: 0,
        })
    }

    /// Makes a setting: `rN=HEX` and `cN=HEX` set a register and a cell, `order=` the flags by a comparison, `levelN=L`,
    /// `code=L`, `constants=L` and `maximum=N` the permit, `input=HEX` the bytes of the tape that waits, and `writes=N` how
    /// many writes are left.
    pub(crate) fn set(&mut self, rt: &HostRuntime, word: &str) -> anyhow::Result<()> {
        let (key, value) = word.split_once('=').context("a setting has no value")?;
        match key {
            "order" => self.processor.set_flags(Flags::compared(order_of(value)?)),
            "code" => self.close_segment(0, value)?,
            "constants" => self.close_segment(1, value)?,
            "maximum" => self.bound_stack(value)?,
            "input" => self.input = hex::decode(rt.alloc(), value)?,
            "writes" => self.writes = value.parse()?,
            _ => self.set_numbered(key, value)?,
        }
        Ok(())
    }

    /// Makes a setting whose key has a number.
    fn set_numbered(&mut self, key: &str, value: &str) -> anyhow::Result<()> {
        if let Some(number) = key.strip_prefix("level") {
            return self.close_register(number, value);
        }
        if let Some(number) = key.strip_prefix('r') {
            let register = Register::new(number.parse()?).context("no such register")?;
            self.processor
                .set_register(register, u32::from_str_radix(value, 16)?);
            return Ok(());
        }
        let place: usize = key.strip_prefix('c').context("no such setting")?.parse()?;
        let cell = self.cells.get_mut(place).context("no such cell")?;
        *cell = u32::from_str_radix(value, 16)?;
        Ok(())
    }

    /// Sets a register's level.
    fn close_register(&mut self, number: &str, level: &str) -> anyhow::Result<()> {
        let done = self.permit.set_register(number.parse()?, level.parse()?);
        done.map_err(|_| anyhow!("a register or a level is out of range"))
    }

    /// Sets a segment's level.
    fn close_segment(&mut self, segment: u64, level: &str) -> anyhow::Result<()> {
        let done = self.permit.set_segment(segment, level.parse()?);
        done.map_err(|_| anyhow!("a level is out of range"))
    }

    /// Sets the stack's maximum.
    fn bound_stack(&mut self, words: &str) -> anyhow::Result<()> {
        let done = self.permit.set_stack(words.parse()?);
        done.map_err(|_| anyhow!("a maximum is out of range"))
    }
}

/// The result of a comparison by its name.
fn order_of(name: &str) -> anyhow::Result<Option<Ordering>> {
    match name {
        "none" => Ok(None),
        "less" => Ok(Some(Ordering::Less)),
        "equal" => Ok(Some(Ordering::Equal)),
        "greater" => Ok(Some(Ordering::Greater)),
        _ => Err(anyhow!("no such order")),
    }
}
