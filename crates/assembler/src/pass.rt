//! The first pass: every line is asked its questions, and the labels get their addresses.

ghost use Rattle.std.specs.Prelude.{◌≡◌, ◌<◌, ◌≤◌, true, [], is_some};
ghost use Rattle.bounded.specs.Held.{entries, room, KeepsRest};
ghost use Rattle.lexer.specs.Text.{lines_of};
ghost use Rattle.assembler.specs.Labels.{name_in};
ghost use Rattle.assembler.specs.Assembled.{entered, outcome, run_from, fresh};

use crate::judge::judge;
use crate::label::Label;
use crate::progress::Progress;
use crate::question::Refusal;
use crate::symbols::Symbols;
use bounded::list::BoundedList;
use lexer::lines::Lines;

/// Puts a label into the list, which has room for it.
fn enter(labels: &mut BoundedList<Label>, label: Option<Label>)
    requires { is_some label ≡ true → labels.old.len < room labels.old }
    ensures held { entries labels.new ≡ entered (entries labels.old) label }
    ensures room { room labels.new ≡ room labels.old }
    ensures grown { labels.old.len ≤ labels.new.len }
    ensures rest { KeepsRest labels.old labels.new }
{
    if let Some(label) = label {
        let _ = labels.push(label);
    }
}

/// Asks every line its questions, and fills the label list.
pub(crate) fn first_pass(text: &[u8], labels: &mut BoundedList<Label>) -> Result<Progress, Refusal>
    ensures told { outcome result (entries labels.new) ≡ run_from (name_in text.now) (room labels.old) [] fresh 1 0 (lines_of text.now) }
    ensures room { room labels.new ≡ room labels.old }
    ensures rest { KeepsRest labels.old labels.new }
{
    labels.clear();
    let mut progress = Progress::new();
    for line in Lines::new(text) {
        let symbols = Symbols {
            text,
            labels: labels.as_slice(),
        };
        let judged = judge(symbols, labels.capacity(), progress, line).map_err(
            |question| Refusal::on_line(question, line.number),
        )?;
        enter(labels, judged.label);
        progress = judged.progress;
    }
    Ok(progress)
}
