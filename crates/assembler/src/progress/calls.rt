//! What a line does to the progress.

ghost use Rattle.std.specs.Prelude.{◌≡◌, ◌||◌, is_some, if◌then◌else◌, Ok, Err};
ghost use Rattle.std.specs.Option.{option_map};
ghost use Rattle.assembler.specs.Reading.{result_map};
ghost use Rattle.assembler.specs.Assembled.{fresh};
ghost use Rattle.assembler.specs.Progress.{progress_of};
ghost use Rattle.assembler.specs.Questions.{after_by, few_with, followed_by, is, orderly, stack_in};
ghost use Rattle.assembler.specs.Mnemonics.{is_stack};
ghost use Rattle.assembler.specs.Statements.{meant};

use crate::effect::{code_words, data_words, is_end, stack_in};
use crate::heading::Heading;
use crate::progress::Progress;
use crate::question::Question;
use crate::sizes::Sizes;
use crate::statement::Statement;

impl Progress {
    /// The progress before the first line.
    pub(crate) fn new() -> Progress
        ensures { progress_of result ≡ fresh }
    {
        Progress {
            waiting: false,
            begun: false,
            constants: false,
            ended: false,
            stack: None,
            sizes: Sizes::new(),
        }
    }

    /// The initial stack pointer.
    pub(crate) fn stack_pointer(self) -> u32
        ensures { result ≡ (progress_of self).stack }
    {
        self.stack.unwrap_or(1_048_575)
    }

    /// Question 4: does a waiting label, also one of this line, get a command or constant before the next label or
    /// directive?
    pub(crate) fn is_followed(self, heading: Heading) -> bool
        ensures { result ≡ followed_by (progress_of self) heading.labelled heading.mnemonic }
    {
        let doubled = self.waiting && heading.labelled;
        let waiting = self.waiting || heading.labelled;
        !doubled && !(waiting && heading.is_directive())
    }

    /// Question 6: does the statement stand where it may?
    pub(crate) fn is_in_order(self, heading: Heading) -> bool
        ensures { result ≡ orderly (progress_of self) (heading.labelled || heading.named) heading.mnemonic }
    {
        if self.ended && heading.has_words() {
            return false;
        }
        if heading.is_stack() && (self.begun || self.stack.is_some()) {
            return false;
        }
        !(heading.is_code() && self.constants)
    }

    /// The progress after a line, or question 10.
    pub(crate) fn advance(
        self,
        heading: Heading,
        statement: Option<Statement>,
    ) -> Result<Progress, Question>
        requires { is is_stack heading.mnemonic ≡ is_some (stack_in (option_map meant statement)) }
        ensures { result_map progress_of result ≡ (if few_with (progress_of self) (option_map meant statement.entry) then Ok (after_by (progress_of self) heading.labelled heading.named heading.mnemonic (option_map meant statement.entry)) else Err Question.Words) }
    {
        let sizes = self
            .sizes
            .plus(code_words(statement), data_words(statement))
            .ok_or(Question::Words)?;
        Ok(Progress {
            waiting: !heading.named && (self.waiting || heading.labelled),
            begun: self.begun || heading.labelled || heading.is_code() || heading.is_constant(),
            constants: self.constants || heading.is_constant(),
            ended: self.ended || is_end(statement),
            stack: stack_in(statement).or(self.stack),
            sizes,
        })
    }
}
