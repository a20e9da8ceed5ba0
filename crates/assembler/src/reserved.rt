//! Which words may be labels.

ghost use Rattle.std.specs.Prelude.{◌≡◌};
ghost use Rattle.std.specs.List.{list_all};
ghost use Rattle.assembler.specs.Labels.{label_byte, lawful, reserved, usable};

use crate::mnemonic::Mnemonic;
use lexer::word::register_number;

/// A letter from `a` to `z`, a digit, an underscore or a dot.
fn is_label_byte(b: u8) -> bool
    ensures { result ≡ label_byte b }
{
    matches!(b, b'a'..=b'z' | b'0'..=b'9' | b'_' | b'.')
}

/// Whether all bytes of a name are such.
fn has_label_bytes(name: &[u8]) -> bool
    ensures { result ≡ list_all label_byte name.now }
{
    name.iter().all(|b| is_label_byte(*b))
}

/// Whether a name is lawful for a label.
fn is_lawful(name: &[u8]) -> bool
    ensures { result ≡ lawful name.now }
{
    !matches!(name, [] | [b'0'..=b'9', ..]) && has_label_bytes(name)
}

/// Whether a name is one of the assembler's own.
fn is_reserved(name: &[u8]) -> bool
    ensures { result ≡ reserved name.now }
{
    Mnemonic::from_name(name).is_some() || register_number(name).is_some()
}

/// Whether a name may be that of a label.
pub(crate) fn is_usable(name: &[u8]) -> bool
    ensures { result ≡ usable name.now }
{
    is_lawful(name) && !is_reserved(name)
}
