//! What each question finds wrong, in words.

ghost use Rattle.std.specs.Prelude.{◌≡◌};
ghost use Rattle.report.specs.Meanings.{meaning_of};

use assembler::question::Question;

/// What is wrong with a text that gets a no to a question.
pub fn meaning(question: Question) -> &'static str
    ensures { result.now ≡ meaning_of question }
{
    match question {
        Question::Text => "the text is too long or has a byte that is not allowed",
        Question::Label => "the label is not a valid name, is reserved or is already defined",
        Question::LabelRoom => "there are too many labels",
        Question::Waiting => "a label is followed by another label or by a directive",
        Question::Name => "no command, constant or directive has this name",
        Question::Order => "this command, constant or directive may not stand here",
        Question::Count => "the number of operands is wrong",
        Question::Form => "an operand is not well formed",
        Question::Range => "a number is out of range",
        Question::Words => "there are more than 65536 words",
        Question::End => "there is no end directive",
        Question::Defined => "a label is used and not defined",
        Question::Output => "the output is too short for the executable",
    }
}
