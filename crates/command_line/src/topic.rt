//! Topics: what a command line is about.

ghost use Rattle.std.specs.Prelude.{◌≡◌};
ghost use Rattle.command_line.specs.Topics.{word_of, topic_of};

/// What a command line is about: its first word. `tape show` and `tape make` are one topic.
#[derive(Clone, Copy)]
pub enum Topic {
    Assemble,
    List,
    Check,
    Same,
    Run,
    Compare,
    Tape,
    File,
    Replay,
    Help,
}

/// Every topic.
const TOPICS: [Topic; 10] = [
    Topic::Assemble,
    Topic::List,
    Topic::Check,
    Topic::Same,
    Topic::Run,
    Topic::Compare,
    Topic::Tape,
    Topic::File,
    Topic::Replay,
    Topic::Help,
];

impl Topic {
    /// The word that names it, by which it is found.
    pub fn word(self) -> &'static str
        ensures value { result.now ≡ word_of self }
        ensures found { topic_of result.now ≡ Some self }
    {
        match self {
            Topic::Assemble => "assemble",
            Topic::List => "list",
            Topic::Check => "check",
            Topic::Same => "same",
            Topic::Run => "run",
            Topic::Compare => "compare",
            Topic::Tape => "tape",
            Topic::File => "file",
            Topic::Replay => "replay",
            Topic::Help => "help",
        }
    }
}

/// The topic that a word names, if it names one.
pub fn topic_of(word: &str) -> Option<Topic>
    ensures { result ≡ topic_of word.now }
{
    TOPICS.iter().copied().find(|topic| topic.word() == word)
}
