//! Checksums.

ghost use Rattle.std.specs.Prelude.{◌≡◌};
ghost use Rattle.cases.specs.Sum.{added, checksum_of};

/// The sum with a number more: added to 31 times what came before it, in 32 bits.
pub fn add(sum: u32, number: u64) -> u32
    ensures { result ≡ added sum number }
{
    sum.wrapping_mul(31)
        .wrapping_add((number % 0x1_0000_0000) as u32)
}

/// The checksum of bytes.
pub fn checksum(bytes: &[u8]) -> u32
    ensures { result ≡ checksum_of bytes.now }
{
    bytes.iter().fold(0, |sum, byte| add(sum, u64::from(*byte)))
}
