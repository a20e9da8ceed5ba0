//! A host whose readings are made by a rule: the numbers from one up to another. It keeps up to 16 results itself.

#![tactic(auto)]

use arrayvec::ArrayVec;
use host::item::Item;
use std::ops::Range;

pub mod calls;

/// What waits are the numbers of a range; the results are what was written.
#[derive(Drop)]
pub struct Counting {
    numbers: Range<u32>,
    results: ArrayVec<Item, 16>,
}
