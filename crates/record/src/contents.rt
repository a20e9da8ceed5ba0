//! What a record holds.

/// The files of a record, each by its bytes.
#[derive(Clone, Copy)]
pub struct Contents<'a> {
    pub executable: &'a [u8],
    pub listing: &'a [u8],
    pub readings: &'a [u8],
    pub results: &'a [u8],
    pub permit: &'a [u8],
    pub page: &'a [u8],
}
