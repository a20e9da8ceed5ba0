//! The line of a label.

ghost use Rattle.std.specs.Prelude.{◌≡◌, ◌++◌, OnOk};
ghost use Rattle.report.specs.Lines.{label_line};

use assembler::label::Label;
use assembler::labels::name_of;
use std::alloc::{AllocError, Global};

/// Appends the line of a label to a page.
pub(crate) fn push_label(
    page: &mut Vec<u8>,
    heap: Global,
    text: &[u8],
    label: Label,
) -> Result<(), AllocError>
    ensures { OnOk result (page.new.items ≡ page.old.items ++ label_line text.now label) }
{
    let address = label.address;
    let end = format!(in heap; ": {address}\n")?;
    page.extend_from_slice(b"label ")?;
    page.extend_from_slice(name_of(text, label))?;
    page.extend_from_slice(end.as_bytes())?;
    Ok(())
}
