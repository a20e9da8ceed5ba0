//! What a run goes by.

use permit::permit::Permit;

/// The permit of a run, and how many steps it may take.
#[derive(Clone, Copy)]
pub struct Settings<'p> {
    pub permit: &'p Permit,
    pub budget: u64,
}
