//! Whether items are as they were filled.

ghost use Rattle.std.specs.Prelude.{◌↔◌, IsTrue, All};

/// Whether every item equals the filler.
pub fn is_filled<T: PartialEq>(items: &[T], filler: &T) -> bool
    ensures { IsTrue result ↔ All (λ x. IsTrue (T.eq x filler.now)) items.now }
{
    items.iter().all(|x| x == filler)
}
