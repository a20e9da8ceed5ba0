//! Going through the words of a line.

ghost use Rattle.std.specs.Prelude.{◌≡◌, ℕ, ◌+◌, ◌-◌, true, false, List, [], length, drop, ⊤, is_some, IfSome, IfNone, MatchOption, if◌then◌else◌};
ghost use Rattle.std.specs.Option.{option_map};
ghost use Rattle.lexer.specs.Cursor.{words_in, kinds_in, told_in, past_word, Begins, SplitFirst};
ghost use Rattle.lexer.specs.Divided.{Divided};
ghost use Rattle.lexer.specs.Parts.{StandsAt};
ghost use Rattle.lexer.specs.Text.{tail_of, blanks};
ghost use Rattle.lexer.specs.Shown.{shown, bytes_of, tell, told_label, first_told, first_shown, IsLabel};

use crate::inside::{count_words, split_word};
use crate::lines::Line;
use crate::word::{Token, Word, first_kind, kind_of};
use crate::words::Words;

impl<'a> Line<'a> {
    /// The words of the line.
    #[tactic(auto, using(crate::proofs::Divides::divides, crate::proofs::Stands::few_words))]
    pub fn words(self) -> Words<'a>
        ensures begins { Begins self.entry result }
        ensures divided { Divided self.entry.code.now (words_in result) }
    {
        Words {
            rest: self.code,
            place: self.place,
            line: self.number,
        }
    }
}

impl<'a> Words<'a> {
    ghost use Rattle.std.specs.Iterator.{YieldsFirstBy, MakesProgress, item_count};

    /// How many words are still to come.
    pub fn word_count(&self) -> usize
        ensures { result ≡ length (words_in self.now) }
    {
        count_words(self.rest)
    }

    /// The first word, its place, and the words after it.
    fn split_first(self) -> Option<(usize, &'a [u8], Words<'a>)>
        ensures { MatchOption result ((words_in self.entry ≡ []) × (past_word self.entry ≡ self.entry.place)) (λ w. SplitFirst self.entry w.0 w.1.now w.2) }
    {
        let (skipped, word, rest) = split_word(self.rest)?;
        let place = self.place + skipped;
        let after = Words {
            rest,
            place: place + word.len(),
            line: self.line,
        };
        Some((place, word, after))
    }

    /// The first word of a line, if there is one: a label where it ends in a colon, else a word of its kind.
    #[tactic(auto, using(crate::proofs::Stands::rest_none))]
    pub fn first_word(&mut self) -> Option<Token<'a>>
        ensures told { tell result ≡ first_told self.old.line true (self.old.place + blanks self.old.rest.now) (words_in self.old) }
        ensures kind { option_map (λ t. shown t.word) result ≡ first_shown true (words_in self.old) }
        ensures left { words_in self.new ≡ tail_of (words_in self.old) }
        ensures unchanged { IfNone result (self.new ≡ self.old) }
        ensures place { self.new.place ≡ past_word self.old }
        ensures rest { self.new.rest.now ≡ drop (self.new.place - self.old.place) self.old.rest.now }
        ensures line { self.new.line ≡ self.old.line }
        ensures stands { (text : List ℕ) → StandsAt text self.old.place self.old.rest.now → IfSome result (λ t. StandsAt text t.place (bytes_of (shown t.word))) }
        ensures still { (text : List ℕ) → StandsAt text self.old.place self.old.rest.now → StandsAt text self.new.place self.new.rest.now }
    {
        let (place, word, after) = self.split_first()?;
        let word = first_kind(word);
        let line = self.line;
        let token = Token { line, place, word };
        *self = after;
        Some(token)
    }

    /// Takes the next word if it ends in a colon: the label that a line may begin with.
    #[tactic(auto, using(crate::proofs::Stands::front_stands, crate::proofs::Stands::rest_none))]
    pub fn take_label(&mut self) -> Option<Token<'a>>
        ensures told { tell result ≡ told_label (first_told self.old.line true (self.old.place + blanks self.old.rest.now) (words_in self.old)) }
        ensures label { IfSome result (λ t. IsLabel t.word) }
        ensures left { words_in self.new ≡ (if is_some result then tail_of (words_in self.old) else words_in self.old) }
        ensures unchanged { IfNone result (self.new ≡ self.old) }
        ensures place { self.new.place ≡ (if is_some result then past_word self.old else self.old.place) }
        ensures rest { self.new.rest.now ≡ drop (self.new.place - self.old.place) self.old.rest.now }
        ensures line { self.new.line ≡ self.old.line }
        ensures stands { (text : List ℕ) → StandsAt text self.old.place self.old.rest.now → IfSome result (λ t. StandsAt text t.place (bytes_of (shown t.word))) }
        ensures still { (text : List ℕ) → StandsAt text self.old.place self.old.rest.now → StandsAt text self.new.place self.new.rest.now }
    {
        let (place, word, after) = self.split_first()?;
        let [name @ .., b':'] = word else {
            return None;
        };
        let word = Word::Label(name);
        let line = self.line;
        *self = after;
        Some(Token { line, place, word })
    }

    /// The next word, if there is one, of any kind but a label.
    #[tactic(auto, using(crate::proofs::Stands::kind_bytes))]
    pub fn next_word(&mut self) -> Option<Token<'a>>
        ensures steps { YieldsFirstBy (λ t. (t.line, t.place, shown t.word)) told_in self.old result self.new }
        ensures goes { MakesProgress (λ _. ⊤) (item_count kinds_in) self.old result self.new }
        ensures told { tell result ≡ first_told self.old.line false (self.old.place + blanks self.old.rest.now) (words_in self.old) }
        ensures kind { option_map (λ t. shown t.word) result ≡ first_shown false (words_in self.old) }
        ensures left { words_in self.new ≡ tail_of (words_in self.old) }
        ensures unchanged { IfNone result (self.new ≡ self.old) }
        ensures place { self.new.place ≡ past_word self.old }
        ensures rest { self.new.rest.now ≡ drop (self.new.place - self.old.place) self.old.rest.now }
        ensures line { self.new.line ≡ self.old.line }
        ensures stands { (text : List ℕ) → StandsAt text self.old.place self.old.rest.now → IfSome result (λ t. StandsAt text t.place (bytes_of (shown t.word))) }
        ensures still { (text : List ℕ) → StandsAt text self.old.place self.old.rest.now → StandsAt text self.new.place self.new.rest.now }
    {
        let (place, word, after) = self.split_first()?;
        let line = self.line;
        *self = after;
        Some(Token {
            line,
            place,
            word: kind_of(word),
        })
    }
}

impl<'a> Iterator for Words<'a> {
    ghost use Rattle.std.specs.Iterator.{YieldsFirstBy, item_count};

    type Item = Token<'a>;

    ghost next_gives = { YieldsFirstBy (λ t. (t.line, t.place, shown t.word)) told_in };

    ghost remaining = { item_count kinds_in };

    fn next(&mut self) -> Option<Token<'a>> {
        self.next_word()
    }
}
