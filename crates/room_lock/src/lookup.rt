//! What a look-up by name, and the opening of a room, give.

use crate::prefix::Prefix;
use openings::{Opening, RoomHistories};

/// What a look-up of a room by its name gives.
#[derive(Drop)]
pub enum Lookup<P: RoomHistories> {
    /// The room is open.
    Open(Opening<P>),
    /// The room is opened on demand, and is not open.
    Closed,
    /// There is no such room.
    NoRoom,
}

/// What the opening of a room on demand leads to.
#[derive(Drop)]
pub enum Opened<P: RoomHistories> {
    /// The room is open now. It begins with this record.
    New(Prefix<P>),
    /// The room was open already.
    Known(Opening<P>),
    /// As many rooms are open on demand as may be.
    Full,
}
