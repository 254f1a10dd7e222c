//! What the threads of a keeper do.

use std::time::Duration;

/// One thing that a thread of a keeper did: it kept the record of a room, opened a room, or closed
/// one.
#[derive(Drop)]
pub struct Attempt {
    /// The places at which there is news: that of the room, and that at which who asked for it
    /// waits.
    pub news: [Option<usize>; 2],
    /// What it changed for people, if it did.
    pub change: Option<Change>,
    /// What came of writing and syncing the room's file, if there was something to write.
    pub sync: Option<FileSync>,
}

/// What came of writing and syncing a room's file.
#[derive(Clone, Copy, Debug, Drop, PartialEq, Eq)]
pub enum FileSync {
    /// So many bytes were appended and synced, in this time.
    Kept { bytes: u64, time: Duration },
    /// No space is left on the device.
    Full,
    /// It failed for another reason.
    Failed,
}

/// What changed.
#[derive(Debug, Drop, PartialEq, Eq)]
pub enum Change {
    /// The record of the room of this name was not kept, and had been before. `why` is a text for
    /// people.
    Fails { room: String, why: String },
    /// The record of the room of this name was kept, and had not been before.
    KeptAgain { room: String },
    /// A room was opened on demand.
    Opened(Beginning),
    /// The room at this place was closed.
    Closed { place: usize },
}

/// How a room begins that was opened on demand.
#[derive(Debug, Drop, PartialEq, Eq)]
pub struct Beginning {
    /// The name of the room.
    pub room: String,
    /// Its place among the rooms, from 0.
    pub place: usize,
    /// The number of its sites.
    pub sites: u32,
    /// The number of its entries.
    pub entries: usize,
    /// The number of its objects.
    pub objects: u32,
    /// Another room goes on with what it has.
    pub has_ended: bool,
}
