//! How much has been done in a room.

/// How much has been done in a room: what a session compares to see whether there is news.
#[derive(Clone, Copy, Debug, PartialEq, Eq)]
pub struct Progress {
    /// The number of entries of its record.
    pub entries: usize,
    /// How often a note has changed.
    pub note_changes: u64,
}
