//! Small examples.

use crate::bytes::{push_times, repeat_from};
use crate::filled::is_filled;
use crate::sum::checksum;
use crate::words::next_word;
use std::test::Fail;

#[test]
fn parts(rt: HostRuntime) -> Result<(), Fail> {
    let mut bytes = Vec::from_slice(rt.alloc(), b"a")?;
    push_times(&mut bytes, b"xy", 2)?;
    push_times(&mut bytes, b"z", 0)?;
    assert!(rt; bytes.as_slice() == b"axyxy".as_slice());
    Ok(())
}

#[test]
fn tails(rt: HostRuntime) -> Result<(), Fail> {
    let mut bytes = Vec::from_slice(rt.alloc(), b"axy")?;
    repeat_from(&mut bytes, 1, 5)?;
    assert!(rt; bytes.as_slice() == b"axyxyxyxyxy".as_slice());
    repeat_from(&mut bytes, 3, 0)?;
    assert!(rt; bytes.as_slice() == b"axy".as_slice());
    repeat_from(&mut bytes, 4, 2)?;
    assert!(rt; bytes.as_slice() == b"axy".as_slice());
    Ok(())
}

#[test]
fn sums_and_fillers(rt: HostRuntime) -> Result<(), Fail> {
    assert_eq!(rt; checksum(b""), 0);
    assert_eq!(rt; checksum(&[1, 2]), 33);
    assert!(rt; is_filled(&[7u8, 7], &7));
    assert!(rt; !is_filled(&[7u8, 8], &7));
    Ok(())
}

#[test]
fn words(rt: HostRuntime) -> Result<(), Fail> {
    let mut words = " one two".split_whitespace();
    assert_eq!(rt; next_word(&mut words, "name")?, "one");
    assert_eq!(rt; next_word(&mut words, "room")?, "two");
    assert!(rt; next_word(&mut words, "room").is_err());
    Ok(())
}
