//! What stands first on an input.

use crate::item::Item;

/// An item, and how many units it takes.
#[derive(Clone, Copy)]
pub struct Found {
    pub item: Item,
    pub units: usize,
}
