//! What every host keeps.

ghost use Rattle.std.specs.Prelude.{◌≡◌, ℕ, List};
ghost use Rattle.host.specs.Meaning.{Meaning, got, after_get, write_answer, after_write};
ghost use Rattle.host.specs.Questions.{OnlyFirstNo, OnlyNoWriteLeft};

use crate::item::{Item, Kind};
use crate::refusal::Refusal;

/// A host. All that counts of it is its `Meaning`, in four parts: what can still be got, the kind of end behind that,
/// what was written so far, and the number of writes that it still takes. Whoever shows that the two calls do to that
/// meaning what is defined has written a host.
pub trait Host {
    ghost meaning: { Self → Meaning };

    // the names of the borrows that the host holds, which no call exchanges
    ghost roots: { Self → List ℕ };

    /// Takes the first item that waits and answers it, or refuses and changes nothing.
    fn get(&mut self, kind: Kind) -> Result<Item, Refusal>
        ensures value { result ≡ got kind (meaning self.old) }
        ensures after { meaning self.new ≡ after_get kind (meaning self.old) }
        ensures first { OnlyFirstNo kind (meaning self.old) result }
        ensures lender { roots self.new ≡ roots self.old };

    /// Writes an item behind those that are written, or refuses and changes nothing.
    fn write(&mut self, item: Item) -> Result<(), Refusal>
        ensures value { result ≡ write_answer (meaning self.old) }
        ensures after { meaning self.new ≡ after_write item (meaning self.old) }
        ensures first { OnlyNoWriteLeft (meaning self.old) result }
        ensures lender { roots self.new ≡ roots self.old };
}
