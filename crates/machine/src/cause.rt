//! Why a step cannot be taken.

ghost use Rattle.std.specs.Prelude.{◌≡◌};
ghost use Rattle.machine.specs.Numbers.{number_of, layer_of};
ghost use Rattle.machine.specs.declared.cause.Cause.TheVariants.{Host, Quotient, Double};

use doubles::conversion::OutOfRange;
use host::refusal::Refusal;
use integers::division::NoFit;

/// The question about a step that gets a no first.
#[derive(Clone, Copy, PartialEq, Eq)]
pub enum Cause {
    /// 30: is there a cell at the address in r15?
    Fetch,
    /// 31: does the word have a command's code, 53 or less?
    Opcode,
    /// 32: is there a system call with this number?
    SystemCall,
    /// 33: does each pair begin at r14 or below, so that a second register follows?
    Pair,
    /// 34: do the levels of the operands' registers allow what the command does to them?
    Register,
    /// 35: is the value to be shifted by 31 bits or fewer?
    Shift,
    /// 36: is there a quotient that one register can hold?
    Quotient,
    /// 37: does the double lie strictly between -1 and 4,294,967,296?
    Double,
    /// 38: is the character's number 255 or less?
    Character,
    /// 39: is the cell, or the target of the call, inside memory?
    Cell,
    /// 40: does the level of the cell's segment allow the access?
    Segment,
    /// 41: does the push keep the stack within the permit's maximum?
    Stack,
    /// 42 to 45: what the host was asked.
    Host(Refusal),
}

/// Where a step was stopped.
#[derive(Clone, Copy, PartialEq, Eq)]
pub enum Layer {
    Machine,
    Host,
}

impl Cause {
    /// The number by which the fault is reported.
    pub fn number(self) -> u8
        ensures { result ≡ number_of self }
    {
        match self {
            Cause::Fetch => 30,
            Cause::Opcode => 31,
            Cause::SystemCall => 32,
            Cause::Pair => 33,
            Cause::Register => 34,
            Cause::Shift => 35,
            Cause::Quotient => 36,
            Cause::Double => 37,
            Cause::Character => 38,
            Cause::Cell => 39,
            Cause::Segment => 40,
            Cause::Stack => 41,
            Cause::Host(refusal) => refusal.number(),
        }
    }

    /// Where the step was stopped: in the host by 42 to 45, and else in the machine.
    pub fn layer(self) -> Layer
        ensures { result ≡ layer_of self }
    {
        match self {
            Cause::Host(_) => Layer::Host,
            _ => Layer::Machine,
        }
    }
}

impl From<Refusal> for Cause {
    ghost from_gives = { λ refusal result. result ≡ Host refusal };

    fn from(refusal: Refusal) -> Cause {
        Cause::Host(refusal)
    }
}

impl From<NoFit> for Cause {
    ghost from_gives = { λ _ result. result ≡ Quotient };

    fn from(_: NoFit) -> Cause {
        Cause::Quotient
    }
}

impl From<OutOfRange> for Cause {
    ghost from_gives = { λ _ result. result ≡ Double };

    fn from(_: OutOfRange) -> Cause {
        Cause::Double
    }
}
