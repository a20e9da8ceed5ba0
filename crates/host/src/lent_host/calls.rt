//! The calls of a host over lent units.

ghost use Rattle.std.specs.Prelude.{◌≡◌, [], ◌∷◌, length};
ghost use Rattle.bounded.specs.Held.{entries, room, KeepsRest};
ghost use Rattle.host.specs.Meaning.{got, after_get, write_answer, after_write};
ghost use Rattle.host.specs.Questions.{OnlyFirstNo, OnlyNoWriteLeft};
ghost use Rattle.host.specs.Codes.{all_coded, ReadsAs};
ghost use Rattle.host.specs.Lent.{new_lent, input_after, output_after, place_after};
ghost use Rattle.host.specs.LentMeaning.{lent_meaning};

use crate::code_unit::CodeUnit;
use crate::host::Host;
use crate::item::{Item, Kind};
use crate::lent_host::LentHost;
use crate::lent_host::writes::writes_left;
use crate::refusal::Refusal;
use bounded::list::BoundedList;

impl<'i, 'o, U: CodeUnit> LentHost<'i, 'o, U> {
    /// A host over lent units, whose results are read while it stands. No write is left where there is no room for all
    /// of them.
    pub fn new(input: &'i [U], output: &'o mut [U], writes: usize) -> LentHost<'i, 'o, U>
        ensures meaning { lent_meaning U.code result ≡ new_lent U.code U.MOST input.now (length output.old) writes }
        ensures output { result.output.items.now ≡ output.old }
        ensures place { result.output.len ≡ 0 }
        ensures input { result.input.now ≡ input.now }
        ensures lender { result.output.items.ghost_name ≡ output.entry.ghost_name }
    {
        let mut list = BoundedList::new(output);
        LentHost::over(input, &mut list, writes)
    }

    /// A host over lent units that takes over the caller's list for its output, and empties it. No write is left where
    /// the list has no room for all of them. The caller has a list without room until `finish` gives back its own.
    pub fn over(input: &'i [U], list: &mut BoundedList<'o, U>, writes: usize) -> LentHost<'i, 'o, U>
        ensures meaning { lent_meaning U.code result ≡ new_lent U.code U.MOST input.now (room list.old) writes }
        ensures output { result.output.items.now ≡ list.old.items.now }
        ensures place { result.output.len ≡ 0 }
        ensures input { result.input.now ≡ input.now }
        ensures lender { result.output.items.ghost_name ≡ list.old.items.ghost_name }
        ensures handed { list.new.items.now ≡ [] }
        ensures none { list.new.len ≡ 0 }
    {
        let left = writes_left::<U>(list.capacity(), writes);
        let mut output = std::mem::replace(list, BoundedList::new(&mut []));
        output.clear();
        LentHost {
            input,
            output,
            left,
        }
    }

    /// Ends the host, and gives back the list of the units that were written.
    pub fn finish(self, list: &mut BoundedList<'o, U>)
        ensures entries { entries list.new ≡ all_coded U.code (lent_meaning U.code self.entry).written }
        ensures reads { ReadsAs U.code (entries list.new) (lent_meaning U.code self.entry).written }
        ensures items { list.new.items.now ≡ self.entry.output.items.now }
        ensures count { list.new.len ≡ self.entry.output.len }
        ensures lender { list.new.items.ghost_name ≡ self.entry.output.items.ghost_name }
    {
        let LentHost { output, .. } = self;
        *list = output;
    }

    /// The units of the items that were written.
    pub fn written(&self) -> &[U]
        ensures value { result.now ≡ all_coded U.code (lent_meaning U.code self.now).written }
        ensures reads { ReadsAs U.code result.now (lent_meaning U.code self.now).written }
        ensures place { result.now ≡ entries self.now.output }
    {
        self.output.as_slice()
    }

    /// How many units the written items have.
    pub fn written_len(&self) -> usize
        ensures value { result ≡ length (all_coded U.code (lent_meaning U.code self.now).written) }
        ensures place { result ≡ self.now.output.len }
    {
        self.output.len()
    }

    /// The units of what waits: the items, and a spoiled end if there is one.
    pub fn waiting(&self) -> &[U]
        ensures input { result.now ≡ self.now.input.now }
        ensures items { U.code.items result.now ≡ (lent_meaning U.code self.now).waiting }
        ensures spoiled { U.code.spoiled result.now ≡ (lent_meaning U.code self.now).spoiled }
    {
        &self.input[..]
    }

    /// Takes the first item that waits, or refuses.
    fn take(&mut self, kind: Kind) -> Result<Item, Refusal>
        ensures value { result ≡ got kind (lent_meaning U.code self.old) }
        ensures after { lent_meaning U.code self.new ≡ after_get kind (lent_meaning U.code self.old) }
        ensures input { self.new.input.now ≡ input_after U.code result self.old.input.now }
        ensures output { self.new.output.items.now ≡ self.old.output.items.now }
        ensures place { self.new.output.len ≡ self.old.output.len }
        ensures lender { self.new.output.items.ghost_name ≡ self.old.output.items.ghost_name }
    {
        let found = U::first_of(self.input)?;
        if !found.item.is_kind(kind) {
            return Err(Refusal::OtherKind);
        }
        self.input = &self.input[found.units..];
        Ok(found.item)
    }
}

impl<'i, 'o, U: CodeUnit> Host for LentHost<'i, 'o, U> {
    ghost meaning = { lent_meaning U.code };

    ghost roots = { λ h. h.output.items.ghost_name ∷ [] };

    fn get(&mut self, kind: Kind) -> Result<Item, Refusal>
        ensures value { result ≡ got kind (lent_meaning U.code self.old) }
        ensures after { lent_meaning U.code self.new ≡ after_get kind (lent_meaning U.code self.old) }
        ensures first { OnlyFirstNo kind (lent_meaning U.code self.old) result }
        ensures lender { self.new.output.items.ghost_name ∷ [] ≡ self.old.output.items.ghost_name ∷ [] }
        ensures input { self.new.input.now ≡ input_after U.code result self.old.input.now }
        ensures output { self.new.output.items.now ≡ self.old.output.items.now }
        ensures place { self.new.output.len ≡ self.old.output.len }
    {
        self.take(kind)
    }

    fn write(&mut self, item: Item) -> Result<(), Refusal>
        ensures value { result ≡ write_answer (lent_meaning U.code self.old) }
        ensures after { lent_meaning U.code self.new ≡ after_write item (lent_meaning U.code self.old) }
        ensures first { OnlyNoWriteLeft (lent_meaning U.code self.old) result }
        ensures lender { self.new.output.items.ghost_name ∷ [] ≡ self.old.output.items.ghost_name ∷ [] }
        ensures input { self.new.input.now ≡ self.old.input.now }
        ensures output { self.new.output.items.now ≡ output_after U.code self.old.left item self.old.output }
        ensures place { self.new.output.len ≡ place_after U.code self.old.left item self.old.output }
        ensures holds { entries self.new.output ≡ all_coded U.code (lent_meaning U.code self.new).written }
        ensures rest { KeepsRest self.old.output self.new.output }
    {
        if self.left == 0 {
            return Err(Refusal::NoWriteLeft);
        }
        // the output has room for each write that is left
        let _ = U::push_item(item, &mut self.output);
        self.left -= 1;
        Ok(())
    }
}
