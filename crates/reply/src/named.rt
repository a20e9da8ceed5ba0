//! Files by name.

/// The bytes of a file, with the name by which it was asked for.
#[derive(Clone, Copy)]
pub struct Named<'a> {
    pub name: &'a str,
    pub bytes: &'a [u8],
}
