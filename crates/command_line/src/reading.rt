//! Reading options, word by word.

ghost use Rattle.std.specs.Prelude.{◌≡◌};
ghost use Rattle.command_line.specs.Reading.{after_option, after_word, end_of, options_in};

use crate::given::Given;
use crate::misuse::Misuse;
use crate::option_name::{NumberOption, OptionName, WordOption, option_named};
use crate::topic::Topic;
use numerals::natural::read_natural;

/// What the words so far have given, and what the next word is.
#[derive(Clone, Copy)]
enum Reading<'a> {
    /// The next word is an option.
    Between {
        given: Given<'a>,
    },
    /// The next word is the value of an option.
    Word {
        given: Given<'a>,
        option: WordOption,
        spelling: &'a str,
    },
    /// The next word is the numeral of an option.
    Number {
        given: Given<'a>,
        option: NumberOption,
        spelling: &'a str,
    },
}

/// What is read after a word where an option is to stand.
fn after_option<'a>(
    command: Topic,
    given: Given<'a>,
    word: &'a str,
) -> Result<Reading<'a>, Misuse<'a>>
    ensures { result ≡ after_option command given.entry word.entry }
{
    let option = option_named(command, word).ok_or(Misuse::UnknownOption { command, word })?;
    if given.has(option) {
        return Err(Misuse::Twice { option: word });
    }
    Ok(match option {
        OptionName::Word(option) => Reading::Word {
            given,
            option,
            spelling: word,
        },
        OptionName::Number(option) => Reading::Number {
            given,
            option,
            spelling: word,
        },
        OptionName::Switch(switch) => Reading::Between {
            given: given.with_switch(switch),
        },
    })
}

impl<'a> Reading<'a> {
    /// What is read after one more word.
    fn after_word(self, command: Topic, word: &'a str) -> Result<Reading<'a>, Misuse<'a>>
        ensures { result ≡ after_word command self.entry word.entry }
    {
        match self {
            Reading::Between { given } => after_option(command, given, word),
            Reading::Word { given, option, .. } => Ok(Reading::Between {
                given: given.with_word(option, word),
            }),
            Reading::Number {
                given,
                option,
                spelling,
            } => {
                let number = read_natural(word.as_bytes()).ok_or(Misuse::NoNumber {
                    option: spelling,
                    word,
                })?;
                Ok(Reading::Between {
                    given: given.with_number(option, number),
                })
            }
        }
    }

    /// What is given when no word is left.
    fn end(self) -> Result<Given<'a>, Misuse<'a>>
        ensures { result ≡ end_of self.entry }
    {
        match self {
            Reading::Between { given } => Ok(given),
            Reading::Word { spelling, .. } | Reading::Number { spelling, .. } => {
                Err(Misuse::NoValue { option: spelling })
            }
        }
    }
}

/// What the options of a command give.
pub(crate) fn read_options<'a>(command: Topic, words: &[&'a str]) -> Result<Given<'a>, Misuse<'a>>
    ensures { result ≡ options_in command words.now }
{
    let mut reading = Reading::Between {
        given: Given::nothing(),
    };
    for word in words {
        reading = reading.after_word(command, word)?;
    }
    reading.end()
}
