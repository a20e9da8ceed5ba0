//! Items written in units, by a host that is gone afterwards.

ghost use Rattle.std.specs.Prelude.{◌≡◌, IfOk, take};
ghost use Rattle.std.specs.Result.{is_ok};
ghost use Rattle.host.specs.Codes.{all_coded, ReadsAs};
ghost use Rattle.host.specs.Transcripts.{all_fit, length_answer, output_with};

use crate::code_unit::CodeUnit;
use crate::host::Host;
use crate::item::Item;
use crate::lent_host::LentHost;
use crate::room::{NoRoom, ask_room};
use bounded::list::BoundedList;

/// Writes items to an output from its first unit on, and answers how many units they take. Where question 46 gets a no
/// for a write of each, nothing is written.
pub fn write_items<U: CodeUnit>(items: &[Item], output: &mut [U]) -> Result<usize, NoRoom>
    ensures value { result ≡ length_answer (all_fit U.MOST items.now output.old) (all_coded U.code items.now) }
    ensures output { output.new ≡ output_with (is_ok result) (all_coded U.code items.now) output.old }
    ensures reads { IfOk result (λ n. ReadsAs U.code (take n output.new) items.now) }
{
    ask_room(output, items.len())?;
    let mut list = BoundedList::new(output);
    let mut host = LentHost::over(&[], &mut list, items.len());
    // a write is left for each item
    for item in items {
        let _ = host.write(*item);
    }
    host.finish(&mut list);
    Ok(list.len())
}
