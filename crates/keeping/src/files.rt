//! The files of rooms that are opened on demand.

ghost use Rattle.std.specs.Prelude.{◌≡◌, IfOk};
ghost use Rattle.keeping.specs.steps.Found.{IfHere};

use base_types::{NoMemory, RoomName};
use journal::Journal;
use restore::RestoredFile;
use room_core::RoomState;
use std::alloc::Global;

/// What asking for the file of a room gave.
#[derive(Drop)]
pub enum FileFound<J: Journal> {
    /// The room with the record that the file has. Nobody else has a file of its chain until it is
    /// closed.
    Here {
        state: RoomState,
        file: RestoredFile<J>,
        /// The newest room of its chain, if it is an earlier one.
        later: Option<RoomName>,
    },
    /// Somebody else has a file of its chain.
    Elsewhere,
    /// The room begins with the end of another, which has not ended.
    Absent,
    /// It can't be used. The log says why.
    Unusable,
}

/// The files of rooms, by the names of the rooms. One value serves all threads.
pub trait RoomFiles<J: Journal> {
    /// Opens the file of the room of this name, or creates it. Ends the record of a room that is
    /// nearly full, if another room can go on with it. May wait for a disk.
    ///
    /// # Errors
    /// `NoMemory` if an allocation failed.
    fn open(&self, alloc: Global, name: &RoomName) -> Result<FileFound<J>, NoMemory>
        // The file has the name of the room, and the record of the file:
        ensures { IfOk result (IfHere (λ state file.
            file ≡ record { name = name.now; entries = state.room.entries })) };

    /// Returns whether nothing lies where the file of the room of this name is to be. May wait for
    /// a disk.
    fn is_free(&self, alloc: Global, name: &RoomName) -> bool;

    /// Closes the file of the room of this name, so that others may have it. May wait for a disk.
    fn close(&self, alloc: Global, name: &RoomName, file: J);
}
