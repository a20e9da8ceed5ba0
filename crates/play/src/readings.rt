//! A host over the readings of a run.

ghost use Rattle.std.specs.Prelude.{◌≡◌, ℕ, [], List, length};
ghost use Rattle.host.specs.LentMeaning.{lent_meaning};
ghost use Rattle.host.specs.Tapes.{tape_code};
ghost use Rattle.play.specs.Waiting.{tape_left, IsLeft};

use host::host::Host;
use host::item::{Item, Kind};
use host::refusal::Refusal;
use host::tape::Tape;
use std::marker::{Brand, PhantomData};

/// The readings of a run, which proofs alone see.
pub(crate) trait Readings {
    ghost readings: { List ℕ };
}

impl Readings for Brand {
    ghost readings = { [] };
}

/// A host whose tape of waiting readings can be seen.
pub(crate) trait Waits: Host {
    // the readings before the first step
    ghost readings: { List ℕ };

    /// The tape of the readings that still wait.
    fn waiting_tape(&self) -> &[u8]
        ensures { result.now ≡ tape_left readings (length (Self.meaning self.now).waiting) };
}

/// A tape host on whose input is what is left of the readings.
#[derive(Drop)]
pub(crate) struct Reader<'i, 'o, R: Readings> {
    pub(crate) tape: Tape<'i, 'o>,
    pub(crate) of: PhantomData<R>,
    ghost left: { IsLeft R.readings tape.input.now },
}

impl<'i, 'o, R: Readings> Host for Reader<'i, 'o, R> {
    ghost meaning = { λ h. lent_meaning tape_code h.tape };

    ghost roots = { λ _. [] };

    fn get(&mut self, kind: Kind) -> Result<Item, Refusal> {
        self.tape.get(kind)
    }

    fn write(&mut self, item: Item) -> Result<(), Refusal> {
        self.tape.write(item)
    }
}

impl<'i, 'o, R: Readings> Waits for Reader<'i, 'o, R> {
    ghost readings = { R.readings };

    fn waiting_tape(&self) -> &[u8] {
        self.tape.waiting()
    }
}
