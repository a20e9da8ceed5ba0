//! The options by their words.

ghost use Rattle.std.specs.Prelude.{◌≡◌};
ghost use Rattle.command_line.specs.Names.{spelling_of, options_of, option_named};

use crate::topic::Topic;

/// An option whose value is a word.
#[derive(Clone, Copy)]
pub(crate) enum WordOption {
    Readings,
    Results,
    Permit,
    First,
    Second,
}

/// An option whose value is a numeral.
#[derive(Clone, Copy)]
pub(crate) enum NumberOption {
    Budget,
    Cells,
    Writes,
    Trace,
}

/// An option without a value.
#[derive(Clone, Copy)]
pub(crate) enum Switch {
    Dump,
    Quiet,
}

/// An option.
#[derive(Clone, Copy)]
pub(crate) enum OptionName {
    Word(WordOption),
    Number(NumberOption),
    Switch(Switch),
}

/// The options of `run`.
const RUN_OPTIONS: [OptionName; 9] = [
    OptionName::Word(WordOption::Readings),
    OptionName::Word(WordOption::Results),
    OptionName::Word(WordOption::Permit),
    OptionName::Number(NumberOption::Budget),
    OptionName::Number(NumberOption::Cells),
    OptionName::Number(NumberOption::Writes),
    OptionName::Number(NumberOption::Trace),
    OptionName::Switch(Switch::Dump),
    OptionName::Switch(Switch::Quiet),
];

/// The options of `compare`.
const COMPARE_OPTIONS: [OptionName; 10] = [
    OptionName::Word(WordOption::First),
    OptionName::Word(WordOption::Second),
    OptionName::Word(WordOption::Readings),
    OptionName::Word(WordOption::Results),
    OptionName::Number(NumberOption::Budget),
    OptionName::Number(NumberOption::Cells),
    OptionName::Number(NumberOption::Writes),
    OptionName::Number(NumberOption::Trace),
    OptionName::Switch(Switch::Dump),
    OptionName::Switch(Switch::Quiet),
];

/// The options of a command.
fn options_of(command: Topic) -> &'static [OptionName]
    ensures { result.now ≡ options_of command }
{
    match command {
        Topic::Run => &RUN_OPTIONS,
        Topic::Compare => &COMPARE_OPTIONS,
        _ => &[],
    }
}

impl OptionName {
    /// The word that gives it.
    fn spelling(self) -> &'static str
        ensures { result.now ≡ spelling_of self }
    {
        match self {
            OptionName::Word(WordOption::Readings) => "--readings",
            OptionName::Word(WordOption::Results) => "--results",
            OptionName::Word(WordOption::Permit) => "--permit",
            OptionName::Word(WordOption::First) => "--first",
            OptionName::Word(WordOption::Second) => "--second",
            OptionName::Number(NumberOption::Budget) => "--budget",
            OptionName::Number(NumberOption::Cells) => "--cells",
            OptionName::Number(NumberOption::Writes) => "--writes",
            OptionName::Number(NumberOption::Trace) => "--trace",
            OptionName::Switch(Switch::Dump) => "--dump",
            OptionName::Switch(Switch::Quiet) => "--quiet",
        }
    }
}

/// The option of a command that a word gives, if it gives one.
pub(crate) fn option_named(command: Topic, word: &str) -> Option<OptionName>
    ensures { result ≡ option_named command word.now }
{
    options_of(command)
        .iter()
        .copied()
        .find(|option| option.spelling() == word)
}
