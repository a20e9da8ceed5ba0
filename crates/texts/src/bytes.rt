//! Bytes from the tokens of a case:
//!
//! ```text
//! t:TEXT    the bytes of a text      b:XX      a byte, hexadecimal
//! r:N*TEXT  a text N times           b:XX*N    a byte N times
//! ```
//!
//! N is decimal. In a text `~` stands for a blank (byte 32), `|` for a line end (byte 10) and `^` for a tab (byte 9);
//! every other byte stands for itself.

ghost use Rattle.std.specs.Prelude.{◌≡◌, ◌++◌, map, OnOk};
ghost use Rattle.cases.specs.Repeated.{repeated};
ghost use Rattle.texts.specs.Meant.{meant};

use anyhow::Context;
use cases::bytes::{push_times, repeat_from};
use std::alloc::AllocError;

/// Appends the bytes of a token.
pub(crate) fn push_token(bytes: &mut Vec<u8>, token: &str) -> anyhow::Result<()> {
    let (kind, rest) = token.split_once(':').context("a token has no kind")?;
    match kind {
        "t" => Ok(push_meant(bytes, rest.as_bytes())?),
        "r" => {
            let (times, text) = rest
                .split_once('*')
                .context("a repeated text has no number")?;
            Ok(push_meant_times(bytes, text.as_bytes(), times.parse::<u32>()?)?)
        }
        _ => {
            let (number, times) = match rest.split_once('*') {
                Some((number, times)) => (number, times.parse::<u32>()?),
                None => (rest, 1),
            };
            push_times(bytes, &[u8::from_str_radix(number, 16)?], times)
        }
    }
}

/// The byte that a byte of a text stands for.
fn meaning(byte: u8) -> u8
    ensures { result ≡ meant byte }
{
    match byte {
        b'~' => b' ',
        b'|' => b'\n',
        b'^' => b'\t',
        _ => byte,
    }
}

/// Turns each byte of a text into the byte that it stands for.
fn turn_to_meant(text: &mut [u8])
    ensures { text.new ≡ map meant text.old }
{
    for byte in text.iter_mut() {
        *byte = meaning(*byte);
    }
}

/// Appends the bytes that a text stands for.
fn push_meant(bytes: &mut Vec<u8>, text: &[u8]) -> Result<(), AllocError>
    ensures { OnOk result (bytes.new.items ≡ bytes.old.items ++ map meant text.now) }
{
    let start = bytes.len();
    bytes.extend_from_slice(text)?;
    turn_to_meant(bytes.slice_mut(start..));
    Ok(())
}

/// Appends the bytes that a text stands for some times.
fn push_meant_times(bytes: &mut Vec<u8>, text: &[u8], times: u32) -> Result<(), AllocError>
    ensures { OnOk result (bytes.new.items ≡ bytes.old.items ++ repeated times (map meant text.now)) }
{
    let start = bytes.len();
    push_meant(bytes, text)?;
    repeat_from(bytes, start, times)
}
