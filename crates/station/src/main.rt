//! One task of a station from beginning to end: a program in assembler text reads strain readings and forms a load total and a
//! count. It is assembled, listed, loaded, and run under a tight and a wide permit over a tape and over a sheet; both permits
//! are compared over whole lists of requests, and a run in parts is compared with the whole. Then ten thousand calls are made of
//! two machines in a bad order. What was done is printed.

#![tactic(auto)]

mod calls;
mod check;
mod program;
mod readings;
mod units;

use calls::play_calls;
use check::{compare_permits, run_in_parts, run_once};
use host::record::Record;
use permit::permit::Permit;
use program::{build, show_listing};
use readings::tight_permit;

fn main(rt: HostRuntime) -> anyhow::Result<()> {
    let bytes = build(&rt)?;
    let executable = bytes.as_slice();
    show_listing(&rt, executable)?;
    let tight = tight_permit()?;
    let wide = Permit::new();
    run_once::<u8>(&rt, "tight permit, tape", executable, &tight)?;
    run_once::<Record>(&rt, "tight permit, sheet", executable, &tight)?;
    run_once::<u8>(&rt, "wide permit, tape", executable, &wide)?;
    run_once::<Record>(&rt, "wide permit, sheet", executable, &wide)?;
    compare_permits(&rt, executable, &tight, &wide)?;
    run_in_parts(&rt, executable, &tight)?;
    play_calls(&rt, executable)
}
