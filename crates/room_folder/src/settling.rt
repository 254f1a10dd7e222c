//! Settling the files of rooms: each has the record of its room, and all of it is on the disk.

ghost use Rattle.std.specs.Prelude.{◌≡◌, IfOk};
ghost use Rattle.rules.specs.Limits.{full_limits};

use crate::chain::NewRoom;
use crate::fault::FolderFault;
use crate::folder::{Folder, cannot_keep, log_entries};
use crate::found::{Found, FoundRoom, front_of, string_of};
use crate::room_file::{cut_or_create, open_empty, path_of};
use base_types::{NoMemory, RoomName};
use journal::{Journal, JournalFault, Synced};
use log::Log;
use record_file::append;
use restore::RestoredFile;
use room_core::RoomState;
use rules::Entry;
use std::alloc::Global;
use std::fs;
use std::fs::File;
use std::rt::Files;
use std::sync::{Arc, Wait};

/// A room, and its file, which has the name of the room and its record, all of it on the disk.
#[derive(Drop)]
pub(crate) struct SettledRoom {
    pub(crate) name: RoomName,
    pub(crate) state: RoomState,
    pub(crate) file: RestoredFile<Synced<File>>,
    ghost limits: { state.room.limits ≡ full_limits },
    ghost record_of_file: { file ≡ record { name = name; entries = state.room.entries } },
}

impl<'a> Folder<'a> {
    /// Settles the file of a room. Logs how many entries it has, if it has any.
    pub(crate) fn settle_room<R: Files<File = File> + Log>(
        &self,
        rt: &R,
        alloc: Global,
        room: FoundRoom<File>,
    ) -> Result<SettledRoom, FolderFault<'a>>
        ensures name { IfOk result (λ settled. settled.name ≡ room.name) }
        ensures state { IfOk result (λ settled. settled.state ≡ room.state) }
    {
        self.log_found(rt, alloc, &room)?;
        let FoundRoom { name, state, file } = room;
        let file = self.settle_file(rt, alloc, file)?;
        Ok(SettledRoom { name, state, file })
    }

    /// Logs how many entries a room has, if it has any.
    fn log_found<R: Log>(
        &self,
        rt: &R,
        alloc: Global,
        room: &FoundRoom<File>,
    ) -> Result<(), NoMemory> {
        let path = path_of(alloc, self.dir, room.name.text())?;
        log_entries(rt, path.as_str(), &room.state);
        Ok(())
    }

    /// Settles a file. Logs a warning if it is cut.
    pub(crate) fn settle_file<R: Files<File = File> + Log>(
        &self,
        rt: &R,
        alloc: Global,
        found: Found<File>,
    ) -> Result<RestoredFile<Synced<File>>, FolderFault<'a>>
        ensures { IfOk result (λ settled. settled ≡ found) }
    {
        let Found {
            name,
            file,
            whole,
            behind,
            unwritten,
            restored,
        } = found;
        let path = path_of(alloc, self.dir, name.as_str())?;
        let kept = match cut_or_create(rt, path.as_str(), file, behind, whole) {
            Ok(kept) => kept,
            Err(why) => return Err(cannot_keep(rt, self.dir, path.as_str(), &why)),
        };
        let journal = self.and_entries(rt, alloc, path.as_str(), kept, &unwritten)?;
        Ok(RestoredFile::new(name, restored, journal))
    }

    /// Writes the file of a new room.
    pub(crate) fn write_room<R: Files<File = File> + Log + Wait>(
        &self,
        rt: &R,
        alloc: Global,
        room: NewRoom,
    ) -> Result<SettledRoom, FolderFault<'a>>
        ensures name { IfOk result (λ settled. settled.name ≡ room.name) }
        ensures state { IfOk result (λ settled. settled.state ≡ room.state) }
    {
        let file = self.new_file(rt, alloc, &room)?;
        let NewRoom { name, state } = room;
        Ok(SettledRoom { name, state, file })
    }

    /// Writes a file of the name and the record of a new room.
    fn new_file<R: Files<File = File> + Log + Wait>(
        &self,
        rt: &R,
        alloc: Global,
        room: &NewRoom,
    ) -> Result<RestoredFile<Synced<File>>, FolderFault<'a>>
        ensures { IfOk result (λ file.
            file ≡ record { name = room.now.name; entries = room.now.state.room.entries }) }
    {
        let name = string_of(alloc, &room.name)?;
        let path = path_of(alloc, self.dir, room.name.text())?;
        let entries = room.state.entries();
        let journal = self.replace(rt, alloc, path.as_str(), entries)?;
        Ok(RestoredFile::new(name, front_of(rt, entries), journal))
    }

    /// Writes a new file of these entries, and puts it at the path, in place of any that is there.
    /// So a file at the path of a room is never the beginning of one alone.
    fn replace<R: Files<File = File> + Log>(
        &self,
        rt: &R,
        alloc: Global,
        path: &str,
        entries: &[Arc<Entry>],
    ) -> Result<Synced<File>, FolderFault<'a>> {
        let beside = format!(in alloc; "{path}.new")?;
        let file = match open_empty(rt, beside.as_str()) {
            Ok(file) => file,
            Err(why) => return Err(cannot_keep(rt, self.dir, beside.as_str(), &why)),
        };
        let journal = self.and_entries(rt, alloc, beside.as_str(), Synced::new(file, 0), entries)?;
        match fs::rename(rt, beside.as_str(), path) {
            Ok(()) => Ok(journal),
            Err(why) => Err(cannot_keep(rt, self.dir, path, &why)),
        }
    }

    /// The file with these entries behind what it has.
    fn and_entries<R: Log>(
        &self,
        rt: &R,
        alloc: Global,
        path: &str,
        mut file: Synced<File>,
        entries: &[Arc<Entry>],
    ) -> Result<Synced<File>, FolderFault<'a>> {
        if entries.is_empty() {
            return Ok(file);
        }
        match append(alloc, &mut file, entries) {
            Ok(()) => Ok(file),
            Err(JournalFault::NoMemory) => Err(FolderFault::NoMemory),
            Err(fault) => match file.error() {
                Some(why) => Err(cannot_keep(rt, self.dir, path, why)),
                None => Err(cannot_keep(rt, self.dir, path, &fault)),
            },
        }
    }
}
