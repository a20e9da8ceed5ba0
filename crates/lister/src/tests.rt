//! The program over inputs that come in parts or in messages.

use crate::program::run;
use std::alloc::{AllocError, Global};
use std::io;
use std::io::Read;
use std::process::Abort;
use std::test::Fail;

/// An input that gives at most so many bytes at a time.
#[derive(Drop)]
struct Parts<'a> {
    bytes: &'a [u8],
    most: usize,
}

impl Read for Parts<'_> {
    fn read(&mut self, buffer: &mut [u8]) -> io::Result<usize> {
        let count = self.most.min(buffer.len()).min(self.bytes.len());
        let mut front = &self.bytes[0..count];
        self.bytes = &self.bytes[count..];
        front.read(buffer)
    }
}

/// An input that gives a message of so many bytes at a time, of which what was not asked for is lost.
#[derive(Drop)]
struct Messages<'a> {
    bytes: &'a [u8],
    length: usize,
}

impl Read for Messages<'_> {
    fn read(&mut self, buffer: &mut [u8]) -> io::Result<usize> {
        let length = self.length.min(self.bytes.len());
        let mut message = &self.bytes[0..length];
        self.bytes = &self.bytes[length..];
        message.read(buffer)
    }
}

/// An executable of so many code words, all 0, and some bytes after it.
fn input(heap: Global, words: u32, more: usize) -> Result<Vec<u8>, AllocError> {
    let mut bytes = Vec::from_slice(heap, b"ThisIsKarmaExec\0")?;
    bytes.extend_from_slice(&words.wrapping_mul(4).to_le_bytes())?;
    for number in [0u32, 0, 9, 239] {
        bytes.extend_from_slice(&number.to_le_bytes())?;
    }
    bytes.extend_from_slice(&[0; 476])?;
    for _ in 0..words {
        bytes.extend_from_slice(&[0; 4])?;
    }
    for _ in 0..more {
        bytes.push(0)?;
    }
    Ok(bytes)
}

/// The listing of such an executable.
fn listing(heap: Global, words: u32) -> Result<Vec<u8>, AllocError> {
    let mut text = Vec::from_slice(heap, b"stack 9\n")?;
    for _ in 0..words {
        text.extend_from_slice(b"halt r0 0\n")?;
    }
    text.extend_from_slice(b"end 0\n")?;
    Ok(text)
}

/// Checks what is printed for an input, and whether the program fails.
fn prints_of<R: Read>(rt: &impl Abort, heap: Global, input: &mut R, text: &[u8], fails: bool) {
    let mut output = Vec::new(heap);
    let failed = run(heap, input, &mut output).is_err();
    assert_eq!(rt; failed, fails);
    assert!(rt; output.as_slice() == text);
}

/// Checks these of an input that comes in parts, and of one that comes in messages.
fn prints(rt: &impl Abort, heap: Global, bytes: &[u8], text: &[u8], fails: bool) {
    for most in [1, 7, 512, 8192, 8193, 20_000] {
        prints_of(rt, heap, &mut Parts { bytes, most }, text, fails);
        let mut messages = Messages {
            bytes,
            length: most,
        };
        prints_of(rt, heap, &mut messages, text, fails);
    }
}

#[test]
fn inputs_in_parts(rt: HostRuntime) -> Result<(), Fail> {
    let heap = rt.alloc();
    for words in [0, 1, 1919, 1920] {
        let bytes = input(heap, words, 0)?;
        let text = listing(heap, words)?;
        prints(&rt, heap, bytes.as_slice(), text.as_slice(), false);
    }
    for more in [1, 2, 4, 9000] {
        let bytes = input(heap, 1920, more)?;
        prints(&rt, heap, bytes.as_slice(), b"refused 25\n", true);
    }
    prints(&rt, heap, b"", b"refused 20\n", true);
    prints(&rt, heap, &[0; 600], b"refused 21\n", true);
    Ok(())
}
