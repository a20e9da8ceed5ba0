//! Making bytes.

ghost use Rattle.std.specs.Prelude.{◌≡◌, ◌*◌, ◌++◌, length, take, drop, OnOk};
ghost use Rattle.cases.specs.Repeated.{repeated};

use std::alloc::AllocError;

/// Appends a part some times.
#[inline(always)]
pub fn push_times(bytes: &mut Vec<u8>, part: &[u8], times: u32) -> anyhow::Result<()>
    ensures { OnOk result (bytes.new.items ≡ bytes.old.items ++ repeated times part.now) }
{
    let start = bytes.len();
    bytes.extend_from_slice(part)?;
    if times == 1 {
        return Ok(());
    }
    Ok(repeat_from(bytes, start, times)?)
}

/// Repeats the bytes from a place on, so that they stand there some times.
pub fn repeat_from(bytes: &mut Vec<u8>, at: usize, times: u32) -> Result<(), AllocError>
    ensures { OnOk result (bytes.new.items ≡ take at bytes.old.items ++ repeated times (drop at bytes.old.items)) }
{
    let at = at.min(bytes.len());
    let size = bytes.len() - at;
    let times = times as usize;
    let room = times.checked_mul(size).ok_or(AllocError)?;
    bytes.resize(at.checked_add(room).ok_or(AllocError)?, 0)?;
    spread(bytes.slice_mut(at..), size, times);
    Ok(())
}

/// Copies the first bytes over those after them, which have room for them some times.
fn spread(bytes: &mut [u8], size: usize, times: usize)
    requires { length bytes.old ≡ times * size }
    ensures { bytes.new ≡ repeated times (take size bytes.old) }
{
    let mut done = 1;
    while done < times {
        let more = done.min(times - done);
        let room = more * size;
        let (first, rest) = bytes.split_at_mut(done * size);
        rest[..room].copy_from_slice(&first[..room]);
        done += more;
    }
}
