//! What each number of a refusal or a fault asks.

ghost use Rattle.std.specs.Prelude.{◌≡◌, map};
ghost use Rattle.sentences.specs.Questions.{questions, question_text};
ghost use Rattle.sentences.specs.Rows.{question_in};

/// A question's number, and the sentence that asks it.
#[derive(Clone, Copy)]
pub(crate) struct Row(pub u8, pub &'static str);

/// All questions, by rising numbers.
static QUESTIONS: [Row; 44] = [
    Row(
        1,
        "is the text no longer than 2,097,152 bytes, and has it no byte but 9, 10 and 32 to 126?",
    ),
    Row(
        2,
        "has the line's label the form of a label, and is it neither reserved nor defined before?",
    ),
    Row(3, "is there room in the label list for one more?"),
    Row(
        4,
        "does a label get its command or constant before another label or a directive comes?",
    ),
    Row(
        5,
        "does the line's first word, its label aside, name a directive, a constant or a command?",
    ),
    Row(6, "does the line stand where it may?"),
    Row(7, "has the line's name the right number of operands?"),
    Row(8, "has every operand the form that its place takes?"),
    Row(9, "does every number lie in the range of its place?"),
    Row(
        10,
        "are code and constants at most 65,536 words, with this line's?",
    ),
    Row(11, "has the text an end?"),
    Row(
        12,
        "is each label that an operand names defined in the text?",
    ),
    Row(13, "does the executable fit into the output?"),
    Row(20, "does a whole header stand there, 512 bytes?"),
    Row(21, "do the first 16 bytes spell the mark?"),
    Row(22, "is the executable made for processor 239?"),
    Row(23, "is the filler, bytes 36 to 511, all zero?"),
    Row(
        24,
        "do both sizes count whole words of 4 bytes, 65,536 words at most in all?",
    ),
    Row(
        25,
        "is every byte accounted for: the header, and then as many as both sizes say?",
    ),
    Row(
        26,
        "do the first instruction's address and the initial stack pointer both lie below 1,048,576?",
    ),
    Row(27, "does the listing fit into the output?"),
    Row(
        29,
        "has the memory from 1,024 up to 1,048,576 cells, and do words, start and stack pointer lie in it?",
    ),
    Row(30, "is there a cell at the address in r15?"),
    Row(31, "does the word have a command's code, 53 or less?"),
    Row(32, "is there a system call with this number?"),
    Row(
        33,
        "does each pair begin at r14 or below, so that a second register follows?",
    ),
    Row(
        34,
        "do the levels of the operands' registers allow what the command does to them?",
    ),
    Row(35, "is the value to be shifted by 31 bits or fewer?"),
    Row(36, "is there a quotient that one register can hold?"),
    Row(
        37,
        "does the double lie strictly between -1 and 4,294,967,296?",
    ),
    Row(38, "is the character's number 255 or less?"),
    Row(39, "is the cell, or the target of the call, inside memory?"),
    Row(40, "does the level of the cell's segment allow the access?"),
    Row(
        41,
        "does the push keep the stack within the permit's maximum?",
    ),
    Row(
        42,
        "is anything left of the input, an item or a spoiled end?",
    ),
    Row(43, "does the rest of the input begin with an item?"),
    Row(44, "has the next item the kind that is asked for?"),
    Row(45, "may one more item be written?"),
    Row(
        46,
        "are 65,536 writes or fewer asked for, with room for each: 9 bytes of a tape, a record of a sheet?",
    ),
    Row(
        50,
        "has the memory as many cells as when the machine was loaded?",
    ),
    Row(51, "has no run of the machine ended in an exit?"),
    Row(52, "is the budget 100,000,000 steps or fewer?"),
    Row(53, "is there such a register or cell?"),
    Row(
        54,
        "are all in range: register 0 to 15, segment 0 to 1, level 0 to 2, maximum 0 to 1,048,576?",
    ),
];

/// The rows of the table.
pub(crate) fn rows() -> &'static [Row]
    ensures { map question_in result.now ≡ questions }
{
    &QUESTIONS
}

/// What the question with a number asks. A refusal or a fault with this number says that the question got a no.
pub fn question_of(number: u8) -> &'static str
    ensures { result.now ≡ question_text number }
{
    match rows().iter().find(|Row(known, _)| *known == number) {
        Some(Row(_, sentence)) => sentence,
        None => "no question has this number",
    }
}
