//! Printing what a case came to.

use crate::run::Ending;
use host::host::Host;
use host::item::{Item, Kind};
use host::refusal::Refusal;
use isa::register::Register;
use machine::cause::Layer;
use machine::processor::Processor;
use machine::turn::Turn;

/// Prints how many steps were taken and how the last one ended.
pub(crate) fn show_ending(rt: &HostRuntime, ending: Ending) -> anyhow::Result<()> {
    let steps = ending.steps;
    match ending.last {
        Ok(Turn::Next) => println!(rt; "  steps {steps} next")?,
        Ok(Turn::Halted) => println!(rt; "  steps {steps} halted")?,
        Ok(Turn::Exited(code)) => println!(rt; "  steps {steps} exited {code:x}")?,
        Err(fault) => {
            let number = fault.cause.number();
            let address = fault.address;
            let layer = match fault.cause.layer() {
                Layer::Machine => "machine",
                Layer::Host => "host",
            };
            println!(rt; "  steps {steps} fault {number} at {address} in {layer}")?;
        }
    }
    Ok(())
}

/// Prints the registers that differ, and the flags.
pub(crate) fn show_registers(
    rt: &HostRuntime,
    before: &Processor,
    after: &Processor,
) -> anyhow::Result<()> {
    for number in 0..16u8 {
        if let Some(register) = Register::new(number) {
            let value = after.register(register);
            if value != before.register(register) {
                println!(rt; "  r{number} {value:x}")?;
            }
        }
    }
    let flags = after.flags().value();
    println!(rt; "  flags {flags}")?;
    Ok(())
}

/// Prints the cells that differ.
pub(crate) fn show_cells(rt: &HostRuntime, before: &[u32], after: &[u32]) -> anyhow::Result<()> {
    for (place, (old, new)) in before.iter().zip(after).enumerate() {
        if old != new {
            println!(rt; "  c{place} {new:x}")?;
        }
    }
    Ok(())
}

/// Prints the bytes of the items that were written.
pub(crate) fn show_written(rt: &HostRuntime, bytes: &[u8]) -> anyhow::Result<()> {
    if bytes.is_empty() {
        println!(rt; "  written")?;
    } else {
        let digits = hex::encode(rt.alloc(), bytes)?;
        println!(rt; "  written {digits}")?;
    }
    Ok(())
}

/// Takes what waits, whatever its kind.
fn take_any<H: Host>(host: &mut H) -> Result<Item, Refusal> {
    for kind in [Kind::Number, Kind::Real, Kind::Character] {
        match host.get(kind) {
            Err(Refusal::OtherKind) => {}
            answer => return answer,
        }
    }
    Err(Refusal::OtherKind)
}

/// Prints what waits.
pub(crate) fn show_waiting<H: Host>(rt: &HostRuntime, host: &mut H) -> anyhow::Result<()> {
    match take_any(host) {
        Ok(Item::Number(n)) => println!(rt; "  waits number {n:x}")?,
        Ok(Item::Real(bits)) => println!(rt; "  waits real {bits:x}")?,
        Ok(Item::Character(c)) => println!(rt; "  waits character {c:x}")?,
        Err(refusal) => {
            let number = refusal.number();
            println!(rt; "  waits refused {number}")?;
        }
    }
    Ok(())
}
