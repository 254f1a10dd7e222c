//! The files of rooms on demand, in the folder of `--keep`.

use base_types::{NoMemory, RoomName};
use journal::Synced;
use keeping::{FileFound, RoomFiles};
use log::Log;
use room_folder::{Folder, RoomFound};
use std::alloc::Global;
use std::fs::File;
use std::rt::Files;
use std::sync::Wait;

/// The files of rooms on demand, in this folder.
#[derive(Drop)]
pub(crate) struct FolderFiles<'a, 'w, R> {
    pub(crate) rt: &'a R,
    pub(crate) folder: &'a Folder<'w>,
}

impl<R: Files<File = File> + Log + Wait> RoomFiles<Synced<File>> for FolderFiles<'_, '_, R> {
    fn open(&self, alloc: Global, name: &RoomName) -> Result<FileFound<Synced<File>>, NoMemory> {
        match self.folder.open_room(self.rt, alloc, name)? {
            RoomFound::Here { state, file, later } => Ok(FileFound::Here { state, file, later }),
            RoomFound::Elsewhere => Ok(FileFound::Elsewhere),
            RoomFound::Absent => Ok(FileFound::Absent),
            RoomFound::Bad(_) | RoomFound::Unusable => Ok(FileFound::Unusable),
        }
    }

    fn is_free(&self, alloc: Global, name: &RoomName) -> bool {
        self.folder.is_free(self.rt, alloc, name)
    }

    /// An empty file that stays since an allocation failed does no harm.
    fn close(&self, alloc: Global, name: &RoomName, file: Synced<File>) {
        let _ = self.folder.close_room(self.rt, alloc, name, file);
    }
}
