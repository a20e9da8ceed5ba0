//! The law that listings tell executables apart.

ghost use Rattle.std.specs.Prelude.{◌≡◌, true};
ghost use Rattle.roundtrip.specs.Laws.{TellsApart};

/// Holds the fact that two accepted executables have equal listings exactly when they are equal.
pub fn listings_tell_apart() -> bool
    ensures answer { result ≡ true }
    ensures law { TellsApart }
{
    true
}
