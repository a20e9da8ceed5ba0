//! The entries of the label list that a case lends.

ghost use Rattle.std.specs.Prelude.{◌≡◌};
ghost use Rattle.texts.specs.Marks.{filler_label, added_label, label_sum_of};

use assembler::label::{Label, Place};
use cases::sum::add;

/// The entry that a lent list is filled with.
pub(crate) fn filler() -> Label
    ensures { result ≡ filler_label }
{
    Label {
        place: Place::at(7),
        length: 7,
        address: 7,
    }
}

/// The sum with the three numbers of a label more.
fn add_label(sum: u32, label: Label) -> u32
    ensures { result ≡ added_label sum label }
{
    let sum = add(sum, label.place.offset as u64);
    let sum = add(sum, label.length as u64);
    add(sum, u64::from(label.address))
}

/// The 32-bit sum in which each number of each label is added to 31 times what came before it.
pub(crate) fn sum_labels(labels: &[Label]) -> u32
    ensures { result ≡ label_sum_of labels.now }
{
    labels.iter().fold(0, |sum, label| add_label(sum, *label))
}
