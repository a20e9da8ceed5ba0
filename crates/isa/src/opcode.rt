//! The opcodes: what the 54 codes of a command word name.

ghost use Rattle.std.specs.Prelude.{◌≡◌, IfSome, Some, map};
ghost use Rattle.isa.specs.Table.{code_of, name_of, form_of, opcodes, opcode_at, opcode_named};

use crate::form::Form;

/// One opcode for each code from 0 to 53, in the order of the codes.
#[derive(Clone, Copy)]
pub enum Opcode {
    Halt,
    Syscall,
    Add,
    Addi,
    Sub,
    Subi,
    Mul,
    Muli,
    Div,
    Divi,
    Not,
    Shl,
    Shli,
    Shr,
    Shri,
    And,
    Andi,
    Or,
    Ori,
    Xor,
    Xori,
    Itod,
    Dtoi,
    Addd,
    Subd,
    Muld,
    Divd,
    Cmp,
    Cmpi,
    Cmpd,
    Jmp,
    Jne,
    Jeq,
    Jle,
    Jl,
    Jge,
    Jg,
    Push,
    Pop,
    Lc,
    La,
    Mov,
    Load,
    Load2,
    Store,
    Store2,
    Loadr,
    Loadr2,
    Storer,
    Storer2,
    Prc,
    Call,
    Calli,
    Ret,
}

/// What the table of commands says of an opcode: the opcode, its name, and the form of its operands.
#[derive(Clone, Copy)]
struct Row(Opcode, &'static [u8], Form);

/// The table of commands: each opcode's row, at the place of its code.
static TABLE: [Row; 54] = [
    Row(Opcode::Halt, b"halt", Form::Ri),
    Row(Opcode::Syscall, b"syscall", Form::Ri),
    Row(Opcode::Add, b"add", Form::Rr),
    Row(Opcode::Addi, b"addi", Form::Ri),
    Row(Opcode::Sub, b"sub", Form::Rr),
    Row(Opcode::Subi, b"subi", Form::Ri),
    Row(Opcode::Mul, b"mul", Form::Rr),
    Row(Opcode::Muli, b"muli", Form::Ri),
    Row(Opcode::Div, b"div", Form::Rr),
    Row(Opcode::Divi, b"divi", Form::Ri),
    Row(Opcode::Not, b"not", Form::Ri),
    Row(Opcode::Shl, b"shl", Form::Rr),
    Row(Opcode::Shli, b"shli", Form::Ri),
    Row(Opcode::Shr, b"shr", Form::Rr),
    Row(Opcode::Shri, b"shri", Form::Ri),
    Row(Opcode::And, b"and", Form::Rr),
    Row(Opcode::Andi, b"andi", Form::Ri),
    Row(Opcode::Or, b"or", Form::Rr),
    Row(Opcode::Ori, b"ori", Form::Ri),
    Row(Opcode::Xor, b"xor", Form::Rr),
    Row(Opcode::Xori, b"xori", Form::Ri),
    Row(Opcode::Itod, b"itod", Form::Rr),
    Row(Opcode::Dtoi, b"dtoi", Form::Rr),
    Row(Opcode::Addd, b"addd", Form::Rr),
    Row(Opcode::Subd, b"subd", Form::Rr),
    Row(Opcode::Muld, b"muld", Form::Rr),
    Row(Opcode::Divd, b"divd", Form::Rr),
    Row(Opcode::Cmp, b"cmp", Form::Rr),
    Row(Opcode::Cmpi, b"cmpi", Form::Ri),
    Row(Opcode::Cmpd, b"cmpd", Form::Rr),
    Row(Opcode::Jmp, b"jmp", Form::J),
    Row(Opcode::Jne, b"jne", Form::J),
    Row(Opcode::Jeq, b"jeq", Form::J),
    Row(Opcode::Jle, b"jle", Form::J),
    Row(Opcode::Jl, b"jl", Form::J),
    Row(Opcode::Jge, b"jge", Form::J),
    Row(Opcode::Jg, b"jg", Form::J),
    Row(Opcode::Push, b"push", Form::Ri),
    Row(Opcode::Pop, b"pop", Form::Ri),
    Row(Opcode::Lc, b"lc", Form::Ri),
    Row(Opcode::La, b"la", Form::Rm),
    Row(Opcode::Mov, b"mov", Form::Rr),
    Row(Opcode::Load, b"load", Form::Rm),
    Row(Opcode::Load2, b"load2", Form::Rm),
    Row(Opcode::Store, b"store", Form::Rm),
    Row(Opcode::Store2, b"store2", Form::Rm),
    Row(Opcode::Loadr, b"loadr", Form::Rr),
    Row(Opcode::Loadr2, b"loadr2", Form::Rr),
    Row(Opcode::Storer, b"storer", Form::Rr),
    Row(Opcode::Storer2, b"storer2", Form::Rr),
    Row(Opcode::Prc, b"prc", Form::J),
    Row(Opcode::Call, b"call", Form::Rr),
    Row(Opcode::Calli, b"calli", Form::J),
    Row(Opcode::Ret, b"ret", Form::J),
];

/// The rows of the table: what its columns say.
fn rows() -> &'static [Row]
    ensures opcodes { map (λ r. r.0) result.now ≡ opcodes }
    ensures names { map (λ r. r.1.now) result.now ≡ map name_of opcodes }
{
    &TABLE
}

impl Opcode {
    /// The opcode with a code, or none for a code above 53.
    pub fn from_code(code: u8) -> Option<Opcode>
        ensures value { result ≡ opcode_at code }
        ensures back { IfSome result (λ o. code_of o ≡ code) }
        ensures finds { (o : Opcode) → code_of o ≡ code → result ≡ Some o }
    {
        rows().get(usize::from(code)).map(|Row(opcode, ..)| *opcode)
    }

    /// The opcode with a name, or none for a text that names no command.
    pub fn from_name(name: &[u8]) -> Option<Opcode>
        ensures value { result ≡ opcode_named name.now }
        ensures back { IfSome result (λ o. name_of o ≡ name.now) }
        ensures finds { (o : Opcode) → name_of o ≡ name.now → result ≡ Some o }
    {
        rows()
            .iter()
            .find(|Row(_, known, _)| *known == name)
            .map(|Row(opcode, ..)| *opcode)
    }

    /// The code that stands in bits 24 to 31 of its words.
    pub fn code(self) -> u8
        ensures { result ≡ code_of self }
    {
        self as u8
    }

    /// Its name in the assembler's text.
    pub fn name(self) -> &'static [u8]
        ensures { result.now ≡ name_of self }
    {
        let Row(_, name, _) = TABLE[self as usize];
        name
    }

    /// The form of its operands.
    pub fn form(self) -> Form
        ensures { result ≡ form_of self }
    {
        let Row(_, _, form) = TABLE[self as usize];
        form
    }
}
