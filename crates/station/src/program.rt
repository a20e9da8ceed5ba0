//! The station's program.

use anyhow::{Context, anyhow};
use assembler::assemble::assemble;
use assembler::label::{Label, Place};
use bounded::list::BoundedList;
use listing::list::list;
use roundtrip::rebuild::rebuild;

/// Reads how many readings there are, then the readings, and writes their total and their count.
const SOURCE: &[u8] = b"stack 1023
main:
    syscall r2 100      # how many readings
    lc r3 0             # read so far
    lc r4 0             # the total, r4 and r5
    lc r5 0
next:
    cmp r3 r2 0
    jeq done
    syscall r6 101      # a reading, r6 and r7
    addd r4 r6 0
    addi r3 1
    jmp next
done:
    syscall r4 103
    syscall r3 102
    lc r0 10
    syscall r0 105
    halt r0 0
    syscall r3 0
end main
";

/// Assembles the program.
pub(crate) fn build(rt: &HostRuntime) -> anyhow::Result<Vec<u8>> {
    let none = Label {
        place: Place::at(0),
        length: 0,
        address: 0,
    };
    let mut entries = [none; 8];
    let mut labels = BoundedList::new(&mut entries);
    let mut out = vec![in rt.alloc(); 0u8; 1_024]?;
    let length = assemble(SOURCE, &mut labels, out.as_mut_slice()).map_err(|_| anyhow!(
        "the program is refused"
    ))?;
    out.truncate(length);
    let found = labels.len();
    println!(rt; "assembled: {length} bytes, {found} labels")?;
    Ok(out)
}

/// Prints the listing, and whether the executable is assembled from it again.
pub(crate) fn show_listing(rt: &HostRuntime, executable: &[u8]) -> anyhow::Result<()> {
    let mut text = vec![in rt.alloc(); 0u8; 4_096]?;
    let length = list(executable, text.as_mut_slice()).map_err(|_| anyhow!(
        "the executable is refused"
    ))?;
    let lines = text.as_slice().get(..length).context("no listing")?;
    let printed = std::str::from_utf8(lines).ok().context("no text")?;
    print!(rt; "{printed}")?;
    let mut again = vec![in rt.alloc(); 0u8; 1_024]?;
    let rebuilt = rebuild(executable, text.as_mut_slice(), again.as_mut_slice()).map_err(
        |_| anyhow!("the listing is refused"),
    )?;
    let same = again.as_slice().get(..rebuilt) == Some(executable);
    println!(rt; "assembled from its listing: the same bytes {same}")?;
    Ok(())
}
