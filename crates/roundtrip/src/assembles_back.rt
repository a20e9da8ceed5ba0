//! The law that a listing assembles back.

ghost use Rattle.std.specs.Prelude.{◌≡◌, true};
ghost use Rattle.roundtrip.specs.Laws.{AssemblesBack};

/// Holds the fact that a listing assembles to the executable that it was printed from.
pub fn listing_assembles_back() -> bool
    ensures answer { result ≡ true }
    ensures law { AssemblesBack }
{
    true
}
