//! Printing a permit.

use anyhow::Context;
use executable::segment::Segment;
use isa::register::Register;
use permit::level::Level;
use permit::permit::Permit;

/// Prints the level of a segment, and what it allows.
fn show_segment(rt: &HostRuntime, name: &str, level: Level) -> anyhow::Result<()> {
    let number = level.number();
    let reading = if level.allows_reading() { "r" } else { "-" };
    let writing = if level.allows_writing() { "w" } else { "-" };
    print!(rt; " {name} {number} {reading}{writing}")?;
    Ok(())
}

/// Prints what a permit says, to the end of the line.
pub(crate) fn show_permit(rt: &HostRuntime, permit: &Permit) -> anyhow::Result<()> {
    print!(rt; " registers ")?;
    for number in 0..16 {
        let register = Register::new(number).context("there is no such register")?;
        let level = permit.register_level(register).number();
        print!(rt; "{level}")?;
    }
    show_segment(rt, "code", permit.segment_level(Segment::Code))?;
    show_segment(rt, "constants", permit.segment_level(Segment::Constants))?;
    let words = permit.stack_maximum();
    println!(rt; " stack {words}")?;
    Ok(())
}
