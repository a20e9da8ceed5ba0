//! How a case is shown.

/// The listing, what the listing program prints, or the listing's length and checksum alone.
#[derive(Clone, Copy, PartialEq, Eq)]
pub(crate) enum Show {
    Text,
    Printout,
    Sum,
}

impl From<&str> for Show {
    fn from(word: &str) -> Show {
        match word {
            "text" => Show::Text,
            "printout" => Show::Printout,
            _ => Show::Sum,
        }
    }
}
