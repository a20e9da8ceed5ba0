//! Ten thousand calls in a bad order.

use crate::check::compare_lists;
use permit::permit::Permit;
use runs::comparison::Pairing;
use runs::request::{Call, Memory, Part, Request};

/// How many calls are made.
const CALLS: u32 = 10_000;

/// The next number of a sequence that looks random.
fn next(seed: u32) -> u32 {
    seed.wrapping_mul(1_103_515_245).wrapping_add(12_345)
}

/// A call by a number: half of them are refused.
fn call_of(number: u32) -> Call {
    match number % 8 {
        0 => Call::Run(u64::from(number % 13)),
        1 => Call::Run(100_000_001),
        2 => Call::Register(u64::from(number % 16)),
        3 => Call::Register(16 + u64::from(number)),
        4 => Call::Flags,
        5 => Call::Cell(u64::from(number % 1_024)),
        6 => Call::Cell(1_024 + u64::from(number)),
        _ => Call::Run(200_000_000),
    }
}

/// The memory that is handed in: for one call of five a part of another one, which is longer or shorter than the machine's own.
fn memory_of(number: u32) -> Memory {
    let start = (number % 1_500) as usize;
    match number % 10 {
        0 => Memory::Other(Part { start, len: 500 }),
        5 => Memory::Other(Part {
            start: start % 900,
            len: 1_100,
        }),
        _ => Memory::Own,
    }
}

/// Makes the calls of a machine over a tape and of one over a sheet, and prints whether they agree.
pub(crate) fn play_calls(rt: &HostRuntime, executable: &[u8]) -> anyhow::Result<()> {
    println!(rt; "{CALLS} calls in a bad order:")?;
    let permit = Permit::new();
    let mut pairings = Vec::new(rt.alloc());
    let mut seed = 1u32;
    for _ in 0..CALLS {
        seed = next(seed);
        let number = seed >> 8;
        pairings.push(Pairing {
            request: Request {
                call: call_of(number),
                memory: memory_of(number),
            },
            first: permit,
            second: permit,
        })?;
    }
    compare_lists(rt, executable, pairings.as_slice())
}
