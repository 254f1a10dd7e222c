//! What a request about notes gives.

use wire::Reply;

/// What a request about notes gives.
#[derive(Drop)]
pub struct Noted {
    /// All notes of the room.
    pub reply: Reply,
    /// How often notes of the room have changed by then.
    pub changes: u64,
    /// The request has changed the site's note.
    pub is_change: bool,
}
