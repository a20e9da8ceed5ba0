//! Why a machine is not loaded, and why a run or a look is refused.

ghost use Rattle.std.specs.Prelude.{◌≡◌};
ghost use Rattle.runs.specs.Numbers.{load_number, call_number};
ghost use Rattle.runs.specs.declared.refusal.LoadRefusal.TheVariants.{Executable};

use executable::refusal::Refusal;

/// The question about loading that gets a no first.
#[derive(Clone, Copy)]
pub enum LoadRefusal {
    /// 20 to 26: what the check of an executable asks.
    Executable(Refusal),
    /// 29: has the memory from 1,024 up to 1,048,576 cells, and do words, start and stack pointer lie in it?
    Memory,
}

impl LoadRefusal {
    /// The number by which the refusal is reported.
    pub fn number(self) -> u8
        ensures { result ≡ load_number self }
    {
        match self {
            LoadRefusal::Executable(refusal) => refusal.number(),
            LoadRefusal::Memory => 29,
        }
    }
}

impl From<Refusal> for LoadRefusal {
    ghost from_gives = { λ refusal result. result ≡ Executable refusal };

    fn from(refusal: Refusal) -> LoadRefusal {
        LoadRefusal::Executable(refusal)
    }
}

/// The question about a run or a look that gets a no first.
#[derive(Clone, Copy, PartialEq, Eq)]
pub enum CallRefusal {
    /// Has the memory as many cells as when the machine was loaded?
    OtherMemory = 50,
    /// Has no run of the machine ended in an exit?
    HasExited = 51,
    /// Is the budget 100,000,000 steps or fewer?
    BudgetTooLarge = 52,
    /// Is there such a register or cell?
    OutOfRange = 53,
}

impl CallRefusal {
    /// The number by which the refusal is reported.
    pub fn number(self) -> u8
        ensures { result ≡ call_number self }
    {
        self as u8
    }
}
