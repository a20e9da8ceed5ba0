//! What was given so far.

ghost use Rattle.std.specs.Prelude.{◌≡◌};
ghost use Rattle.command_line.specs.Given.{nothing, has, with_word, with_number, with_switch};

use crate::option_name::{NumberOption, OptionName, Switch, WordOption};
use crate::options::Options;

/// What the options of a command have given: `--first` and `--second` beside the others.
#[derive(Clone, Copy)]
pub(crate) struct Given<'a> {
    pub options: Options<'a>,
    pub first: Option<&'a str>,
    pub second: Option<&'a str>,
}

impl<'a> Given<'a> {
    /// Nothing.
    pub(crate) fn nothing() -> Given<'a>
        ensures { result ≡ nothing }
    {
        Given {
            options: Options {
                readings: None,
                results: None,
                permit: None,
                budget: None,
                cells: None,
                writes: None,
                trace: None,
                dump: false,
                quiet: false,
            },
            first: None,
            second: None,
        }
    }

    /// Whether an option has been given.
    pub(crate) fn has(&self, option: OptionName) -> bool
        ensures { result ≡ has self.now option }
    {
        match option {
            OptionName::Word(WordOption::Readings) => self.options.readings.is_some(),
            OptionName::Word(WordOption::Results) => self.options.results.is_some(),
            OptionName::Word(WordOption::Permit) => self.options.permit.is_some(),
            OptionName::Word(WordOption::First) => self.first.is_some(),
            OptionName::Word(WordOption::Second) => self.second.is_some(),
            OptionName::Number(NumberOption::Budget) => self.options.budget.is_some(),
            OptionName::Number(NumberOption::Cells) => self.options.cells.is_some(),
            OptionName::Number(NumberOption::Writes) => self.options.writes.is_some(),
            OptionName::Number(NumberOption::Trace) => self.options.trace.is_some(),
            OptionName::Switch(Switch::Dump) => self.options.dump,
            OptionName::Switch(Switch::Quiet) => self.options.quiet,
        }
    }

    /// This with a word for an option.
    pub(crate) fn with_word(self, option: WordOption, word: &'a str) -> Given<'a>
        ensures { result ≡ with_word self.entry option word.entry }
    {
        let Given {
            mut options,
            mut first,
            mut second,
        } = self;
        match option {
            WordOption::Readings => options.readings = Some(word),
            WordOption::Results => options.results = Some(word),
            WordOption::Permit => options.permit = Some(word),
            WordOption::First => first = Some(word),
            WordOption::Second => second = Some(word),
        }
        Given {
            options,
            first,
            second,
        }
    }

    /// This with a number for an option.
    pub(crate) fn with_number(self, option: NumberOption, number: u64) -> Given<'a>
        ensures { result ≡ with_number self.entry option number }
    {
        let mut options = self.options;
        match option {
            NumberOption::Budget => options.budget = Some(number),
            NumberOption::Cells => options.cells = Some(number),
            NumberOption::Writes => options.writes = Some(number),
            NumberOption::Trace => options.trace = Some(number),
        }
        Given { options, ..self }
    }

    /// This with an option that has no value.
    pub(crate) fn with_switch(self, switch: Switch) -> Given<'a>
        ensures { result ≡ with_switch self.entry switch }
    {
        let mut options = self.options;
        match switch {
            Switch::Dump => options.dump = true,
            Switch::Quiet => options.quiet = true,
        }
        Given { options, ..self }
    }
}
