//! What is asked of a whole run.

use permit::permit::Permit;

/// An executable, the tape of its readings, the permit that it runs under, and how much it may use: steps, cells of memory, and
/// writes.
#[derive(Clone, Copy)]
pub struct Orders<'a> {
    pub executable: &'a [u8],
    pub readings: &'a [u8],
    pub permit: &'a Permit,
    pub budget: u64,
    pub cells: u64,
    pub writes: u64,
}
