//! Replies.

/// What a command prints, and whether all that it was asked was done and agrees: only then does it end with status 0.
#[derive(Drop)]
pub struct Reply {
    pub page: Vec<u8>,
    pub done: bool,
}
