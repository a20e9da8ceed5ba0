//! The calls of the list. Entries past the last are untouched by all of them.

ghost use Rattle.std.specs.Prelude.{◌≡◌, [], length};
ghost use Rattle.std.specs.List.{slice_get};
ghost use Rattle.bounded.specs.Held.{entries, room, appended, answer, items_after, length_after};

use crate::list::{BoundedList, Full};

impl<'a, T: Copy> BoundedList<'a, T> {
    /// The empty list over a slice, whose items stay as they are.
    pub fn new(items: &'a mut [T]) -> BoundedList<'a, T>
        ensures entries { entries result ≡ [] }
        ensures items { result.items.now ≡ items.old }
        ensures lender { result.items.ghost_name ≡ items.entry.ghost_name }
        ensures count { result.len ≡ 0 }
    {
        BoundedList { items, len: 0 }
    }

    /// How many entries there are.
    pub fn len(&self) -> usize
        ensures { result ≡ length (entries self.now) }
    {
        self.as_slice().len()
    }

    /// How many entries there can be.
    pub fn capacity(&self) -> usize
        ensures { result ≡ room self.now }
    {
        self.items.len()
    }

    /// Leaves no entry.
    pub fn clear(&mut self)
        ensures entries { entries self.new ≡ [] }
        ensures items { self.new.items.now ≡ self.old.items.now }
        ensures lender { self.new.items.ghost_name ≡ self.old.items.ghost_name }
        ensures count { self.new.len ≡ 0 }
    {
        self.len = 0;
    }

    /// Appends an entry, or refuses where the list is full and changes nothing.
    pub fn push(&mut self, x: T) -> Result<(), Full>
        ensures value { result ≡ answer (entries self.old) (room self.old) }
        ensures entries { entries self.new ≡ appended (entries self.old) (room self.old) x }
        ensures items { self.new.items.now ≡ items_after (entries self.old) self.old.items.now x }
        ensures lender { self.new.items.ghost_name ≡ self.old.items.ghost_name }
        ensures count { self.new.len ≡ length_after self.old.len (room self.old) }
    {
        if self.len >= self.items.len() {
            return Err(Full);
        }
        self.items[self.len] = x;
        self.len += 1;
        Ok(())
    }

    /// The entry at a place, or none past the last.
    pub fn get(&self, place: usize) -> Option<T>
        ensures { result ≡ slice_get (entries self.now) place }
    {
        self.as_slice().get(place).copied()
    }

    /// The entries.
    pub fn as_slice(&self) -> &[T]
        ensures { result.now ≡ entries self.now }
    {
        &self.items[0..self.len]
    }
}
