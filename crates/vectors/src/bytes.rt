//! Bytes from the tokens of a case:
//!
//! ```text
//! b:XX    a byte           t:TEXT  the bytes of a text
//! w:XX    a 4-byte number, least byte first
//! ```
//!
//! Numbers are hexadecimal, and `*N` after one repeats it N times (decimal).

use anyhow::Context;
use cases::bytes::push_times;

/// Appends the bytes of a token.
pub(crate) fn push_token(bytes: &mut Vec<u8>, token: &str) -> anyhow::Result<()> {
    let (kind, rest) = token.split_once(':').context("a token has no kind")?;
    if kind == "t" {
        return push_times(bytes, rest.as_bytes(), 1);
    }
    let (number, times) = match rest.split_once('*') {
        Some((number, times)) => (number, times.parse::<u32>()?),
        None => (rest, 1),
    };
    let value = u32::from_str_radix(number, 16)?;
    if kind == "w" {
        push_times(bytes, &value.to_le_bytes(), times)
    } else {
        push_times(bytes, &[u8::try_from(value)?], times)
    }
}
