//! Escapes in strings.

ghost use Rattle.std.specs.Prelude.{◌≡◌};
ghost use Rattle.lexer.specs.Escape.{escaped_as};

/// The byte that a backslash and the byte after it mean, or none for another byte.
pub fn escaped(byte: u8) -> Option<u8>
    ensures { result ≡ escaped_as byte }
{
    match byte as char {
        'n' => Some(10),
        '0' => Some(0),
        '"' => Some(34),
        '\\' => Some(92),
        _ => None,
    }
}
