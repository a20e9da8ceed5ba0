//! What a step goes by.

use crate::layout::Layout;
use permit::permit::Permit;

pub mod calls;

/// The permit of a run, and where the parts of the program are.
#[derive(Clone, Copy)]
pub struct Rules<'p> {
    pub permit: &'p Permit,
    pub layout: Layout,
}
