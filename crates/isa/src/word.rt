//! The parts of a word:
//!
//! ```text
//!      31      24 23  20 19  16 15             0
//! RR     code     first  source  modifier (signed)
//! RI     code     first  immediate (signed, 20 bits)
//! RM     code     first  address (20 bits)
//! J      code     zero   address (20 bits)
//! ```

ghost use Rattle.std.specs.Prelude.{◌≡◌, ◌+◌, ◌-◌, ◌*◌, ◌%◌, ◌^◌, ◌<◌};
ghost use Rattle.std.specs.Int.Signed.{mag};
ghost use Rattle.isa.specs.Fields.{code_field, register_field, signed_field, address_field, bits};

use crate::address::Address;
use crate::register::Register;

/// Bits 24 to 31.
pub(crate) fn code(word: u32) -> u8
    ensures { result ≡ code_field word }
{
    (word >> 24) as u8
}

/// The register in the four bits from bit `AT` on.
pub(crate) fn register_at<const AT: u32>(word: u32) -> Register
    requires { AT < 32 }
    ensures { result.number ≡ register_field AT word }
{
    Register {
        number: low_bits::<4>(word >> AT) as u8,
    }
}

/// The address in bits 0 to 19.
pub(crate) fn address(word: u32) -> Address
    ensures { result.value ≡ address_field word }
{
    Address {
        value: low_bits::<20>(word),
    }
}

/// The signed number in the lowest `BITS` bits.
pub(crate) fn signed<const BITS: u32>(word: u32) -> i32
    requires some { 0 < BITS }
    requires few { BITS < 31 }
    ensures value { result ≡ signed_field BITS word }
    ensures fits { mag result < 2 ^ (BITS - 1) }
{
    let low = low_bits::<BITS>(word) as i32;
    if low < 1 << (BITS - 1) {
        low
    } else {
        low - (1 << BITS)
    }
}

/// The lowest `BITS` bits.
fn low_bits<const BITS: u32>(word: u32) -> u32
    requires { BITS < 32 }
    ensures { result ≡ word % 2 ^ BITS }
{
    word & ((1 << BITS) - 1)
}

/// The `BITS` bits of a signed number.
pub(crate) fn bits_of<const BITS: u32>(value: i32) -> u32
    requires some { 0 < BITS }
    requires few { BITS < 31 }
    requires fits { mag value < 2 ^ (BITS - 1) }
    ensures value { result ≡ bits BITS value }
    ensures fits { result < 2 ^ BITS }
{
    if value < 0 {
        (1 << BITS) - value.unsigned_abs()
    } else {
        value as u32
    }
}

/// A number above the lowest `AT` bits, with what stands in these.
pub(crate) fn above<const AT: u32>(high: u8, low: u32) -> u32
    requires low_fits { low < 2 ^ AT }
    requires fits { high * 2 ^ AT < 2 ^ 32 }
    requires few { AT < 32 }
    ensures { result ≡ high * 2 ^ AT + low }
{
    (u32::from(high) << AT) | low
}
