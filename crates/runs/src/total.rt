//! What a list of runs comes to.

use crate::report::Ending;

/// The sum of the counts of some runs, and how the last of them ended.
#[derive(Clone, Copy)]
pub struct Total {
    pub steps: u128,
    pub ending: Ending,
}
