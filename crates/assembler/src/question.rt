//! The questions that a text is asked.

ghost use Rattle.std.specs.Prelude.{◌≡◌};
ghost use Rattle.assembler.specs.Questions.{number_of, origin_at, refusal_at};

/// A question of the assembler, in the order in which they are asked.
#[derive(Clone, Copy)]
pub enum Question {
    /// 1: has the text no more than 2,097,152 bytes, and none but tabs (9), line ends (10) and printing characters (32 to 126)?
    Text = 1,
    /// 2: may the line's label have its name, which no earlier line gave?
    Label = 2,
    /// 3: is the label list not yet full?
    LabelRoom = 3,
    /// 4: does a waiting label get a command or constant before the next label or directive?
    Waiting = 4,
    /// 5: is the word after the label a known one?
    Name = 5,
    /// 6: does the statement stand where it may?
    Order = 6,
    /// 7: is the number of operands right?
    Count = 7,
    /// 8: does every operand have the shape that its place asks for?
    Form = 8,
    /// 9: are all numbers within their limits?
    Range = 9,
    /// 10: do the lines up to this one give no more than 65,536 words?
    Words = 10,
    /// 11: does the text have an `end`?
    End = 11,
    /// 12: does every label in use have an entry?
    Defined = 12,
    /// 13: does the executable fit into the output?
    Output = 13,
}

/// Where a text is refused: the number of a line, or 0 for the whole text.
#[derive(Clone, Copy)]
pub struct Origin {
    pub line: usize,
}

/// The first question with a no, and where.
#[derive(Clone, Copy)]
pub struct Refusal {
    pub question: Question,
    pub origin: Origin,
}

impl Origin {
    /// On a line, by its number, or on no line, by 0.
    pub fn at(line: usize) -> Origin
        ensures { result ≡ origin_at line }
    {
        Origin { line }
    }
}

impl From<Question> for Refusal {
    // no line is the cause
    ghost from_gives = { λ question refusal. refusal ≡ refusal_at question 0 };

    fn from(question: Question) -> Refusal {
        Refusal {
            question,
            origin: Origin::at(0),
        }
    }
}

impl Refusal {
    /// The refusal of a line, by its number.
    pub(crate) fn on_line(question: Question, line: usize) -> Refusal
        ensures { result ≡ refusal_at question line }
    {
        Refusal {
            question,
            origin: Origin::at(line),
        }
    }
}

impl Question {
    /// The number by which the refusal is reported.
    pub fn number(self) -> u8
        ensures { result ≡ number_of self }
    {
        self as u8
    }
}
