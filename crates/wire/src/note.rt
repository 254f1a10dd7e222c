//! Requests about the notes of a room.

use base_types::ValueText;

/// A request about notes. A site that a session is in as may have one note.
#[derive(Drop)]
pub enum NoteRequest {
    /// Have this note in place of the one before, and read all notes of the room. The empty text is
    /// no note.
    Set { text: ValueText },
    /// Read all notes of the room.
    Read,
}
