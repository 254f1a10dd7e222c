//! What asking for a room on demand gives.

use room_lock::{Opening, Prefix, RoomHistories};
use thiserror::Error;

/// What asking for a room on demand gives.
#[derive(Drop)]
pub enum Access<P: RoomHistories> {
    /// The room was opened by this call. It begins with this record.
    New(Prefix<P>),
    /// The room was open already.
    Known(Opening<P>),
    /// The room is being opened or closed. There will be news at this place.
    Later(usize),
    /// The room cannot be opened now.
    NotServed(Reason),
}

/// Why a room cannot be opened now.
#[derive(Clone, Copy, Debug, PartialEq, Eq, Error)]
pub enum Reason {
    /// As many rooms are open as may be, and none of them can be closed.
    #[error("full")]
    Full,
    /// Another process has the room's file.
    #[error("elsewhere")]
    Elsewhere,
    /// The room's file cannot be used, or the room before it in its chain has not ended.
    #[error("file")]
    File,
    /// An allocation failed.
    #[error("memory")]
    NoMemory,
    /// It is still being opened or closed, and who asked waits no longer.
    #[error("late")]
    Late,
}
