//! The calls of the counting host.

ghost use Rattle.std.specs.Prelude.{◌≡◌, []};
// cited by the clauses `first` of the trait
ghost use Rattle.host.specs.Questions.{OnlyFirstNo, OnlyNoWriteLeft};
ghost use Rattle.counting.specs.Counted.{new_counting};
ghost use Rattle.counting.specs.CountingMeaning.{counting_meaning};

use crate::Counting;
use arrayvec::ArrayVec;
use host::host::Host;
use host::item::{Item, Kind};
use host::refusal::Refusal;

impl Counting {
    /// A host that gives the numbers from `next` up to, and without, `end`.
    pub fn new(next: u32, end: u32) -> Counting
        ensures { counting_meaning result ≡ new_counting next end }
    {
        Counting {
            numbers: next..end,
            results: ArrayVec::new(),
        }
    }

    /// The items that were written.
    pub fn written(&self) -> &[Item]
        ensures { result.now ≡ (counting_meaning self.now).written }
    {
        self.results.as_slice()
    }
}

impl Host for Counting {
    ghost meaning = { counting_meaning };

    ghost roots = { λ _. [] };

    #[tactic(auto, using(crate::proofs::Numbered::numbers_more))]
    fn get(&mut self, kind: Kind) -> Result<Item, Refusal> {
        let mut later = self.numbers.start..self.numbers.end;
        let item = Item::Number(later.next().ok_or(Refusal::NothingWaits)?);
        if !item.is_kind(kind) {
            return Err(Refusal::OtherKind);
        }
        self.numbers = later;
        Ok(item)
    }

    fn write(&mut self, item: Item) -> Result<(), Refusal> {
        if self.results.is_full() {
            return Err(Refusal::NoWriteLeft);
        }
        self.results.push(item);
        Ok(())
    }
}
