//! Getting and writing items, over any host.

use anyhow::anyhow;
use host::host::Host;
use host::item::{Item, Kind};
use host::refusal::Refusal;
use std::str::FromStr;

/// A call of a host.
#[derive(Clone, Copy)]
pub(crate) enum Call {
    Get(Kind),
    Write(Item),
}

impl FromStr for Call {
    type Err = anyhow::Error;

    fn from_str(word: &str) -> anyhow::Result<Call> {
        match word.split_once('=') {
            Some((kind, value)) => Ok(Call::Write(item_of(kind_of(kind)?, value)?)),
            None => Ok(Call::Get(kind_of(word)?)),
        }
    }
}

/// The kind that a word names.
fn kind_of(word: &str) -> anyhow::Result<Kind> {
    match word {
        "number" => Ok(Kind::Number),
        "real" => Ok(Kind::Real),
        "character" => Ok(Kind::Character),
        _ => Err(anyhow!("a call names no kind")),
    }
}

/// The item of a kind and a value in hexadecimal.
fn item_of(kind: Kind, value: &str) -> anyhow::Result<Item> {
    match kind {
        Kind::Number => Ok(Item::Number(u32::from_str_radix(value, 16)?)),
        Kind::Real => Ok(Item::Real(u64::from_str_radix(value, 16)?)),
        Kind::Character => Ok(Item::Character(u8::from_str_radix(value, 16)?)),
    }
}

/// Prints an item.
pub(crate) fn show_item(rt: &HostRuntime, item: Item) -> anyhow::Result<()> {
    match item {
        Item::Number(n) => println!(rt; "  number {n:x}")?,
        Item::Real(bits) => println!(rt; "  real {bits:x}")?,
        Item::Character(c) => println!(rt; "  character {c:x}")?,
    }
    Ok(())
}

/// Prints a refusal.
fn show_refusal(rt: &HostRuntime, refusal: Refusal) -> anyhow::Result<()> {
    let number = refusal.number();
    println!(rt; "  refused {number}")?;
    Ok(())
}

/// Makes a call of a host, and prints what it answered.
pub(crate) fn make_call<H: Host>(rt: &HostRuntime, host: &mut H, call: Call) -> anyhow::Result<()> {
    match call {
        Call::Get(kind) => match host.get(kind) {
            Ok(item) => show_item(rt, item),
            Err(refusal) => show_refusal(rt, refusal),
        },
        Call::Write(item) => match host.write(item) {
            Ok(()) => {
                println!(rt; "  taken")?;
                Ok(())
            }
            Err(refusal) => show_refusal(rt, refusal),
        },
    }
}
