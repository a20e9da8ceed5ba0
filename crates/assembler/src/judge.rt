//! The questions that a line is asked, and what it adds.

ghost use Rattle.std.specs.Prelude.{◌≡◌, ◌+◌, is_some};
ghost use Rattle.lexer.specs.Text.{blanks, code_words};
ghost use Rattle.assembler.specs.Labels.{name_in};
ghost use Rattle.assembler.specs.Lines.{Parts, named, parts_of};
ghost use Rattle.assembler.specs.Progress.{progress_of, judged_as};
ghost use Rattle.assembler.specs.Questions.{body_of, entry_of, judge_of, label_refusal, or_refused};
ghost use Rattle.assembler.specs.Reading.{operands_in, result_map};
ghost use Rattle.assembler.specs.Statements.{read_named, told_named};

use crate::heading::Heading;
use crate::label::{Label, Place};
use crate::line::take_first;
use crate::mnemonic::Mnemonic;
use crate::progress::{Judged, Progress};
use crate::question::Question;
use crate::read::read_statement;
use crate::reserved::is_usable;
use crate::statement::Statement;
use crate::symbols::Symbols;
use lexer::lines::Line;
use lexer::words::Words;

/// Questions 2 and 3 of a label.
fn judge_label(symbols: Symbols, capacity: usize, name: &[u8]) -> Result<(), Question>
    ensures { result ≡ or_refused tt (label_refusal (name_in symbols.entry.text.now) capacity symbols.entry.labels.now name.now) }
{
    if !is_usable(name) || symbols.address_of(name).is_some() {
        return Err(Question::Label);
    }
    if symbols.labels.len() >= capacity {
        return Err(Question::LabelRoom);
    }
    Ok(())
}

/// The statement of a mnemonic, if there is one: questions 7, 8 and 9.
fn read_named<'a>(
    mnemonic: Option<Mnemonic>,
    words: &mut Words<'a>,
) -> Result<Option<Statement<'a>>, Question>
    ensures { told_named result ≡ read_named mnemonic (operands_in words.old) }
{
    let Some(mnemonic) = mnemonic else {
        return Ok(None);
    };
    Ok(Some(read_statement(mnemonic, words)?))
}

/// The questions about what follows a label, and the progress after the line.
fn judge_rest(progress: Progress, heading: Heading, words: &mut Words) -> Result<Progress, Question>
    ensures { (l : Parts) → heading.labelled ≡ is_some l.label → heading.named ≡ is_some l.next → heading.mnemonic ≡ named l.next → operands_in words.old ≡ l.operands → result_map progress_of result ≡ body_of (progress_of progress) l }
{
    if !progress.is_followed(heading) {
        return Err(Question::Waiting);
    }
    if !heading.is_known() {
        return Err(Question::Name);
    }
    if !progress.is_in_order(heading) {
        return Err(Question::Order);
    }
    let statement = read_named(heading.mnemonic, words)?;
    progress.advance(heading, statement)
}

/// The entry of a label: its address counts the words up to it.
fn entry_of(progress: Progress, place: usize, name: &[u8]) -> Label
    ensures { result ≡ entry_of place (progress_of progress) name.now }
{
    Label {
        place: Place::at(place),
        length: name.len(),
        address: progress.sizes.total(),
    }
}

/// What a line adds, or the first question that gets a no.
pub(crate) fn judge(
    symbols: Symbols,
    capacity: usize,
    progress: Progress,
    line: Line,
) -> Result<Judged, Question>
    ensures { result_map judged_as result ≡ judge_of (name_in symbols.entry.text.now) capacity symbols.entry.labels.now (progress_of progress) (line.entry.place + blanks line.entry.code.now) (parts_of (code_words line.entry.code.now)) }
{
    let mut words = line.words();
    match take_first(&mut words) {
        (None, first) => {
            let heading = Heading::new(false, first);
            Ok(Judged {
                label: None,
                progress: judge_rest(progress, heading, &mut words)?,
            })
        }
        (Some((place, name)), _) => {
            judge_label(symbols, capacity, name)?;
            let heading = Heading::new(true, words.next_word());
            let after = judge_rest(progress, heading, &mut words)?;
            Ok(Judged {
                label: Some(entry_of(progress, place, name)),
                progress: after,
            })
        }
    }
}
