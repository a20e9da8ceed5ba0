//! Going through the lines of a text.

ghost use Rattle.std.specs.Prelude.{◌≡◌, ℕ, ◌+◌, min, List, length, ⊤, is_some, IfSome, if◌then◌else◌};
ghost use Rattle.std.specs.Option.{option_map};
ghost use Rattle.std.specs.List.{between};
ghost use Rattle.lexer.specs.Cursor.{lines_in, numbered_in, shown_line, LinesStand};
ghost use Rattle.lexer.specs.Divided.{Lined};
ghost use Rattle.lexer.specs.Parts.{StandsAt};
ghost use Rattle.lexer.specs.Text.{lines_of, first_line, next_at, tail_of};

use crate::inside::{before, code_of};
use crate::lines::{Line, Lines};

impl<'a> Line<'a> {
    /// The part of a text from `start` to `end`, as much of it as there is.
    pub fn new(text: &'a [u8], number: usize, start: usize, end: usize) -> Line<'a>
        ensures number { result.number ≡ number }
        ensures place { result.place ≡ min start (min end (length text.now)) }
        ensures code { result.code.now ≡ between result.place (min end (length text.now)) text.now }
        ensures stands { StandsAt text.now result.place result.code.now }
    {
        let end = end.min(text.len());
        let place = start.min(end);
        Line {
            number,
            place,
            code: &text[place..end],
        }
    }
}

impl<'a> Lines<'a> {
    ghost use Rattle.std.specs.Iterator.{YieldsFirstBy, MakesProgress, item_count};

    /// The lines of a text.
    pub fn new(text: &'a [u8]) -> Lines<'a>
        ensures begins { (result.place ≡ 0) × (result.number ≡ 1) × (lines_in result ≡ lines_of text.now) }
        ensures lined { Lined text.now (lines_in result) }
        ensures stand { LinesStand text.now result }
    {
        Lines {
            rest: Some(text),
            place: 0,
            number: 1,
        }
    }

    /// The next line, if there is one.
    pub fn next_line(&mut self) -> Option<Line<'a>>
        ensures steps { YieldsFirstBy shown_line numbered_in self.old result self.new }
        ensures goes { MakesProgress (λ _. ⊤) (item_count numbered_in) self.old result self.new }
        ensures told { option_map shown_line result ≡ first_line self.old.number self.old.place (lines_in self.old) }
        ensures left { lines_in self.new ≡ tail_of (lines_in self.old) }
        ensures place { self.new.place ≡ next_at self.old.place (lines_in self.old) }
        ensures stands { (text : List ℕ) → LinesStand text self.old → IfSome result (λ l. StandsAt text l.place l.code.now) }
        ensures still { (text : List ℕ) → LinesStand text self.old → LinesStand text self.new }
        ensures number { self.new.number ≡ (if is_some result then self.old.number + 1 else self.old.number) }
    {
        let rest = self.rest?;
        let number = self.number;
        let place = self.place;
        let line = before(rest, b'\n');
        self.rest = rest.get(line.len() + 1..);
        self.number += 1;
        self.place += line.len() + 1;
        Some(Line {
            number,
            place,
            code: code_of(line),
        })
    }
}

impl<'a> Iterator for Lines<'a> {
    ghost use Rattle.std.specs.Iterator.{YieldsFirstBy, item_count};

    type Item = Line<'a>;

    ghost next_gives = { YieldsFirstBy shown_line numbered_in };

    ghost remaining = { item_count numbered_in };

    fn next(&mut self) -> Option<Line<'a>> {
        self.next_line()
    }
}
