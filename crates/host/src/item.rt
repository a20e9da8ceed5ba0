//! Items: what passes between a program and its host.

ghost use Rattle.std.specs.Prelude.{◌≡◌};
ghost use Rattle.host.specs.Meaning.{kind_of, is_kind};

/// A number of 32 bits, a real by its 64 bits, or a character of 8 bits.
#[derive(Clone, Copy)]
pub enum Item {
    Number(u32),
    Real(u64),
    Character(u8),
}

/// The number 0, which stands in a place of a list that holds no item yet.
impl Default for Item {
    ghost use Rattle.std.specs.Prelude.{◌≡◌};
    ghost use Rattle.host.specs.declared.item.Item.TheVariants.{Number};

    ghost is_default = { λ item. item ≡ Number 0 };

    fn default() -> Item {
        Item::Number(0)
    }
}

/// The kind of an item.
#[derive(Clone, Copy, PartialEq, Eq)]
pub enum Kind {
    Number,
    Real,
    Character,
}

impl Item {
    /// The kind of the item.
    pub fn kind(self) -> Kind
        ensures { result ≡ kind_of self }
    {
        match self {
            Item::Number(_) => Kind::Number,
            Item::Real(_) => Kind::Real,
            Item::Character(_) => Kind::Character,
        }
    }

    /// Whether the item is of a kind.
    pub fn is_kind(self, kind: Kind) -> bool
        ensures { result ≡ is_kind kind self }
    {
        self.kind() == kind
    }
}
