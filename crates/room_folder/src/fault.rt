//! Why a folder cannot keep rooms.

use base_types::NoMemory;
use std::alloc::{AllocError, AllocFailed};
use thiserror::Error;

/// Why a folder cannot keep rooms, with the words of its line on standard error.
#[derive(Debug, Drop, Error)]
pub enum FolderFault<'a> {
    /// It is no folder, or it or a file in it cannot be opened, read or written.
    #[error("cannot keep: {0}")]
    CannotKeep(&'a str),
    /// Another process holds it.
    #[error("kept by another: {0}")]
    KeptByAnother(&'a str),
    /// Another process has the room's file, at this path.
    #[error("kept by another: {path}")]
    RoomKeptByAnother { path: String },
    /// This line of the room's file, at this path, is no entry that may come next, or ends the
    /// record with another number of entries than its renewal has. Nothing was changed.
    #[error("bad record: {path} line {line}; after a loss of power all that clients were told stands before it: keep a copy, and then the lines before {line} alone")]
    BadRecord { path: String, line: usize },
    /// An allocation failed.
    #[error("no memory")]
    NoMemory,
}

impl From<NoMemory> for FolderFault<'_> {
    fn from(_fault: NoMemory) -> Self {
        FolderFault::NoMemory
    }
}

impl From<AllocError> for FolderFault<'_> {
    fn from(_fault: AllocError) -> Self {
        FolderFault::NoMemory
    }
}

impl<T: Drop> From<AllocFailed<T>> for FolderFault<'_> {
    fn from(_fault: AllocFailed<T>) -> Self {
        FolderFault::NoMemory
    }
}
