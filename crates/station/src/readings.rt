//! What waits for the program, and a permit for it.

use anyhow::anyhow;
use host::item::Item;
use permit::permit::Permit;

/// Four readings, by their bits: 1.5, 0.1, -2.25 and 1000000.
pub(crate) const READINGS: [Item; 5] = [
    Item::Number(4),
    Item::Real(0x3ff8_0000_0000_0000),
    Item::Real(0x3fb9_9999_9999_999a),
    Item::Real(0xc002_0000_0000_0000),
    Item::Real(0x412e_8480_0000_0000),
];

/// A permit under which the program just runs: registers that it does not use are closed, the code may be read alone, the
/// constants not at all, and nothing may be pushed.
pub(crate) fn tight_permit() -> anyhow::Result<Permit> {
    let mut permit = Permit::new();
    for register in [1u64, 8, 9, 10, 11, 12, 13, 14] {
        permit
            .set_register(register, 2)
            .map_err(|_| anyhow!("no such register"))?;
    }
    permit
        .set_segment(0, 1)
        .map_err(|_| anyhow!("no such segment"))?;
    permit
        .set_segment(1, 2)
        .map_err(|_| anyhow!("no such segment"))?;
    permit.set_stack(0).map_err(|_| anyhow!("no such bound"))?;
    Ok(permit)
}
