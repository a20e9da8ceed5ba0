//! Why a program is not run.

ghost use Rattle.std.specs.Prelude.{◌≡◌};
ghost use Rattle.play.specs.Numbers.{number_of};
ghost use Rattle.play.specs.declared.refusal.Refusal.TheVariants.{Load, NoRoom, Memory};

use runs::refusal::LoadRefusal;
use std::alloc::AllocError;

/// The question about a whole run that gets a no first, or want of memory.
#[derive(Clone, Copy)]
pub enum Refusal {
    /// 20 to 26 and 29: what loading asks.
    Load(LoadRefusal),
    /// 46: are 65,536 writes or fewer asked for?
    NoRoom,
    /// 52: is the budget 100,000,000 steps or fewer?
    BudgetTooLarge,
    /// There is no memory.
    Memory,
}

impl Refusal {
    /// The number by which the refusal is reported; want of memory has none.
    pub fn number(self) -> Option<u8>
        ensures { result ≡ number_of self }
    {
        match self {
            Refusal::Load(refusal) => Some(refusal.number()),
            Refusal::NoRoom => Some(46),
            Refusal::BudgetTooLarge => Some(52),
            Refusal::Memory => None,
        }
    }
}

impl From<LoadRefusal> for Refusal {
    ghost from_gives = { λ refusal result. result ≡ Load refusal };

    fn from(refusal: LoadRefusal) -> Refusal {
        Refusal::Load(refusal)
    }
}

impl From<AllocError> for Refusal {
    ghost from_gives = { λ _ result. result ≡ Memory };

    fn from(_: AllocError) -> Refusal {
        Refusal::Memory
    }
}
