//! The header of an executable, and the questions asked of it.

ghost use Rattle.std.specs.Prelude.{◌≡◌, ◌+◌, ◌^◌, ◌<◌, ◌≤◌, length, option_map, if◌then◌else◌, true};
ghost use Rattle.executable.specs.Bytes.{number_at};
ghost use Rattle.executable.specs.Check.{contents, parts_in};
ghost use Rattle.executable.specs.Questions.{code_size, constants_size, first_instruction, stack_pointer, processor, all_zero, long_enough, marked, right_processor, zero_filler, right_sizes, right_length, right_addresses};

use crate::parts::Executable;

const MARK: &[u8] = b"ThisIsKarmaExec\0";

/// Bytes that begin with a whole header: 512 bytes at least.
#[derive(Clone, Copy)]
pub(crate) struct Header<'a> {
    bytes: &'a [u8],
    ghost whole: { 512 ≤ length bytes.now },
}

impl<'a> Header<'a> {
    /// The header with which bytes begin, or none where they are fewer than 512.
    pub(crate) fn new(bytes: &'a [u8]) -> Option<Header<'a>>
        ensures { option_map (λ h. h.bytes.now) result ≡ (if long_enough bytes.now then Some bytes.now else None) }
    {
        if bytes.len() >= 512 {
            Some(Header { bytes })
        } else {
            None
        }
    }

    /// 21: do the first 16 bytes spell the mark?
    pub(crate) fn is_marked(&self) -> bool
        ensures { result ≡ marked self.now.bytes.now }
    {
        self.bytes.starts_with(MARK)
    }

    /// 22: is it made for processor 239?
    pub(crate) fn has_right_processor(&self) -> bool
        ensures { result ≡ right_processor self.now.bytes.now }
    {
        self.number_at(32) == 239
    }

    /// 23: is the filler, bytes 36 to 511, all zero?
    pub(crate) fn has_zero_filler(&self) -> bool
        ensures { result ≡ zero_filler self.now.bytes.now }
    {
        all_zero(&self.bytes[36..512])
    }

    /// 24: do both sizes count whole words, 65,536 at most in all?
    pub(crate) fn has_right_sizes(&self) -> bool
        ensures { result ≡ right_sizes self.now.bytes.now }
    {
        let code = self.code_size();
        let constants = self.constants_size();
        code % 4 == 0 && constants % 4 == 0 && code + constants <= 262_144
    }

    /// 25: is every byte accounted for by header and sizes?
    pub(crate) fn has_right_length(&self) -> bool
        ensures { result ≡ right_length self.now.bytes.now }
    {
        self.bytes.len() == 512 + self.code_size() + self.constants_size()
    }

    /// 26: are both addresses below 1,048,576?
    pub(crate) fn has_right_addresses(&self) -> bool
        ensures { result ≡ right_addresses self.now.bytes.now }
    {
        self.first_instruction() < 1_048_576 && self.stack_pointer() < 1_048_576
    }

    /// The parts of an executable, where the length is right.
    pub(crate) fn parts(&self) -> Executable<'a>
        requires { right_length self.now.bytes.now ≡ true }
        ensures { contents result ≡ parts_in self.now.bytes.now }
    {
        let (code, constants) = self.bytes[512..].split_at(self.code_size());
        Executable {
            code,
            constants,
            first: self.first_instruction(),
            stack: self.stack_pointer(),
        }
    }

    /// The bytes of code.
    fn code_size(&self) -> usize
        ensures value { result ≡ code_size self.now.bytes.now }
        ensures few { result < 2 ^ 32 }
    {
        self.number_at(16) as usize
    }

    /// The bytes of constants.
    fn constants_size(&self) -> usize
        ensures value { result ≡ constants_size self.now.bytes.now }
        ensures few { result < 2 ^ 32 }
    {
        self.number_at(20) as usize
    }

    /// The address of the first instruction.
    fn first_instruction(&self) -> u32
        ensures { result ≡ first_instruction self.now.bytes.now }
    {
        self.number_at(24)
    }

    /// The initial stack pointer.
    fn stack_pointer(&self) -> u32
        ensures { result ≡ stack_pointer self.now.bytes.now }
    {
        self.number_at(28)
    }

    /// The 4-byte number at a place, least byte first.
    fn number_at(&self, at: usize) -> u32
        requires { at + 4 ≤ 512 }
        ensures { result ≡ number_at at self.now.bytes.now }
    {
        u32::from_le_bytes(*self.bytes[at..].first_chunk().unwrap())
    }
}

/// Whether every byte is 0.
fn all_zero(bytes: &[u8]) -> bool
    ensures { result ≡ all_zero bytes.now }
{
    bytes.iter().all(|byte| *byte == 0)
}
