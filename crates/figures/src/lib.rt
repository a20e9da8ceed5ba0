//! Worked examples of the definitions, held as one proved fact.

#![tactic(auto)]

ghost use Rattle.std.specs.Prelude.{◌≡◌, [], ◌∷◌};
ghost use Rattle.isa.specs.Command.{instruction, encoded};
ghost use Rattle.isa.specs.Operands.{form_in, numbers_in};
ghost use Rattle.isa.specs.Table.{form_of};
ghost use Rattle.figures.specs.Figures.{Figures};

use isa::address::Address;
use isa::command::Command;
use isa::immediate::Immediate;
use isa::opcode::Opcode;
use isa::operands::Operands;
use isa::register::Register;

/// The words of `mov r1 r2 -5`, `lc r7 -1`, `calli 21913` and `halt r0 0`, and the fact that the definitions
/// give these words for these commands, and these lines for these words.
pub fn figures() -> [u32; 4]
    ensures words { result ≡ 0x2912FFFB ∷ 0x277FFFFF ∷ 0x34005599 ∷ 0 ∷ [] }
    ensures figures { Figures }
{
    let mov = word(
        Opcode::Mov,
        Operands::Rr {
            first: Register { number: 1 },
            source: Register { number: 2 },
            modifier: -5,
        },
    );
    let lc = word(
        Opcode::Lc,
        Operands::Ri {
            first: Register { number: 7 },
            immediate: Immediate { value: -1 },
        },
    );
    let calli = word(
        Opcode::Calli,
        Operands::J {
            address: Address { value: 21_913 },
        },
    );
    let halt = word(
        Opcode::Halt,
        Operands::Ri {
            first: Register { number: 0 },
            immediate: Immediate { value: 0 },
        },
    );
    [mov, lc, calli, halt]
}

/// The word of a command.
fn word(opcode: Opcode, operands: Operands) -> u32
    requires { form_in operands ≡ form_of opcode }
    ensures { result ≡ encoded (instruction opcode (numbers_in operands)) }
{
    Command { opcode, operands }.encode()
}
