//! Opening the files of rooms while a server runs, and closing them. Several processes may share a
//! folder: each chain has a lock of its own.

ghost use Rattle.std.specs.Prelude.{◌≡◌, IfOk};
ghost use Rattle.rules.specs.Limits.{full_limits};
ghost use Rattle.room_folder.specs.steps.Opened.{IfHere};

use crate::chain::{EndedRoom, Newest, Succeeded};
use crate::fault::FolderFault;
use crate::folder::Folder;
use crate::found::FoundRoom;
use crate::open_rooms::{count_before_end, log_renewal};
use crate::room_file::path_of;
use crate::settling::SettledRoom;
use base_types::{NoMemory, RoomName};
use journal::Synced;
use log::{Log, error, warn};
use restore::RestoredFile;
use room_core::RoomState;
use std::alloc::Global;
use std::fs;
use std::fs::File;
use std::rt::Files;
use std::sync::Wait;

/// What opening a room's file gave.
#[derive(Drop)]
pub enum RoomFound {
    /// The room is here. No other process has the lock of its chain until its file is closed.
    Here {
        /// The room with the record that the file has.
        state: RoomState,
        /// The file, all of it on the disk.
        file: RestoredFile<Synced<File>>,
        /// The newest room of its chain, if it is an earlier one.
        later: Option<RoomName>,
    },
    /// Another process has the lock of the room's chain.
    Elsewhere,
    /// The room is not the first of its chain, and the room before it has not ended.
    Absent,
    /// This line of a file, counted from 1, is no entry that may come next, or ends a record that
    /// cannot be followed. Nothing was changed.
    Bad(usize),
    /// A file can't be used. The log says why.
    Unusable,
}

impl<'a> Folder<'a> {
    /// Opens the file of a room and takes the lock of its chain. Creates the file if there is none
    /// and the room is the first of its chain, or the one before it has ended. Cuts the file to its
    /// whole lines, with a warning in the log, and syncs it, and the folder if the file may be new.
    /// If the room is the newest of its chain and nearly full, ends its record if a renewal helps:
    /// then another room is the newest, and begins when it is opened. Never waits for another
    /// process. Its cost is that of reading the file of the room before, of adding the entries one
    /// by one, of a renewal, and of the syncs.
    ///
    /// `Unusable` stands for a folder, a pipe, a link to no file, a file that can't be opened,
    /// read, cut, written or synced or has more than 1,073,741,824 bytes, and a folder of rooms
    /// that is gone.
    ///
    /// # Errors
    /// `NoMemory` if an allocation failed. The file may have been created, cut to its whole lines, or
    /// ended.
    pub fn open_room<R: Files<File = File> + Log + Wait>(
        &self,
        rt: &R,
        alloc: Global,
        name: &RoomName,
    ) -> Result<RoomFound, NoMemory>
        ensures limits { IfOk result (IfHere (λ state file. state.room.limits ≡ full_limits)) }
        // The file is that of the room of this name, with the record of the file:
        ensures file { IfOk result (IfHere (λ state file.
            file ≡ record { name = name.now; entries = state.room.entries })) }
    {
        match self.open_locked(rt, alloc, name) {
            Ok(found) => Ok(found),
            Err(FolderFault::NoMemory) => Err(NoMemory),
            Err(FolderFault::RoomKeptByAnother { path: _ }) => Ok(RoomFound::Elsewhere),
            Err(FolderFault::BadRecord { path, line }) => {
                error!(rt; "{path}: bad record line {line}");
                Ok(RoomFound::Bad(line))
            }
            Err(_logged) => Ok(RoomFound::Unusable),
        }
    }

    /// Opens the file of a room, as `open_room` does, and keeps the lock of its chain if the room
    /// is here.
    fn open_locked<R: Files<File = File> + Log + Wait>(
        &self,
        rt: &R,
        alloc: Global,
        name: &RoomName,
    ) -> Result<RoomFound, FolderFault<'a>>
        ensures limits { IfOk result (IfHere (λ state file. state.room.limits ≡ full_limits)) }
        ensures file { IfOk result (IfHere (λ state file.
            file ≡ record { name = name.now; entries = state.room.entries })) }
    {
        if !self.lock_chain(rt, alloc, name)? {
            return Ok(RoomFound::Absent);
        }
        let found = self.open_in_chain(rt, alloc, name);
        if !matches!(&found, Ok(RoomFound::Here { .. })) {
            self.unlock_chain(rt, alloc, name)?;
        }
        found
    }

    /// Opens the file of a room of which this process has the chain's lock.
    fn open_in_chain<R: Files<File = File> + Log + Wait>(
        &self,
        rt: &R,
        alloc: Global,
        name: &RoomName,
    ) -> Result<RoomFound, FolderFault<'a>>
        ensures limits { IfOk result (IfHere (λ state file. state.room.limits ≡ full_limits)) }
        ensures file { IfOk result (IfHere (λ state file.
            file ≡ record { name = name.now; entries = state.room.entries })) }
    {
        let first = name.first(alloc)?;
        match self.last_ended(rt, alloc, &first)? {
            Some(ended) => self.open_behind(rt, alloc, name, ended),
            None => self.open_first(rt, alloc, name),
        }
    }

    /// Opens the file of a room of a chain in which none has ended.
    fn open_first<R: Files<File = File> + Log + Wait>(
        &self,
        rt: &R,
        alloc: Global,
        name: &RoomName,
    ) -> Result<RoomFound, FolderFault<'a>>
        ensures limits { IfOk result (IfHere (λ state file. state.room.limits ≡ full_limits)) }
        ensures file { IfOk result (IfHere (λ state file.
            file ≡ record { name = name.now; entries = state.room.entries })) }
    {
        if !name.is_first() {
            return Ok(RoomFound::Absent);
        }
        let room = self.read_room(rt, alloc, name)?;
        let newest = self.go_on(rt, alloc, room)?;
        self.open_newest(rt, alloc, name, newest)
    }

    /// Opens the file of a room of the chain in which this one is the last that has ended.
    fn open_behind<R: Files<File = File> + Log + Wait>(
        &self,
        rt: &R,
        alloc: Global,
        name: &RoomName,
        ended: EndedRoom,
    ) -> Result<RoomFound, FolderFault<'a>>
        ensures limits { IfOk result (IfHere (λ state file. state.room.limits ≡ full_limits)) }
        ensures file { IfOk result (IfHere (λ state file.
            file ≡ record { name = name.now; entries = state.room.entries })) }
    {
        let newest = ended.next.number();
        if name.number() > newest {
            return Ok(RoomFound::Absent);
        }
        if name.number() < newest {
            let later = ended.next.copy(alloc)?;
            return self.open_earlier(rt, alloc, name, later);
        }
        let chain = self.follow(rt, alloc, ended)?;
        self.open_newest(rt, alloc, name, chain.newest)
    }

    /// Opens the file of a room that is not the newest of its chain.
    fn open_earlier<R: Files<File = File> + Log + Wait>(
        &self,
        rt: &R,
        alloc: Global,
        name: &RoomName,
        later: RoomName,
    ) -> Result<RoomFound, FolderFault<'a>>
        ensures limits { IfOk result (IfHere (λ state file. state.room.limits ≡ full_limits)) }
        ensures file { IfOk result (IfHere (λ state file.
            file ≡ record { name = name.now; entries = state.room.entries })) }
    {
        let room = self.read_room(rt, alloc, name)?;
        self.found_here(rt, alloc, room, Some(later))
    }

    /// Opens the file of the room of this name, which was the newest of its chain when its file was
    /// read. `Absent` if the newest room has another name.
    ///
    /// Only the file of this room is written: another thread may have the room before it, or open
    /// the one that follows it.
    fn open_newest<R: Files<File = File> + Log + Wait>(
        &self,
        rt: &R,
        alloc: Global,
        name: &RoomName,
        newest: Newest,
    ) -> Result<RoomFound, FolderFault<'a>>
        ensures limits { IfOk result (IfHere (λ state file. state.room.limits ≡ full_limits)) }
        ensures file { IfOk result (IfHere (λ state file.
            file ≡ record { name = name.now; entries = state.room.entries })) }
    {
        match newest {
            Newest::Found(room) => self.open_found(rt, alloc, name, room),
            Newest::Renewed(succeeded) => self.open_renewed(rt, alloc, name, succeeded),
        }
    }

    /// Opens this room, which is in its file, if it has this name.
    fn open_found<R: Files<File = File> + Log>(
        &self,
        rt: &R,
        alloc: Global,
        name: &RoomName,
        room: FoundRoom<File>,
    ) -> Result<RoomFound, FolderFault<'a>>
        ensures limits { IfOk result (IfHere (λ state file. state.room.limits ≡ full_limits)) }
        ensures file { IfOk result (IfHere (λ state file.
            file ≡ record { name = name.now; entries = state.room.entries })) }
    {
        if room.name == *name {
            self.found_here(rt, alloc, room, None)
        } else {
            Ok(RoomFound::Absent)
        }
    }

    /// Opens the room of this name, if it is one of these.
    fn open_renewed<R: Files<File = File> + Log + Wait>(
        &self,
        rt: &R,
        alloc: Global,
        name: &RoomName,
        succeeded: Succeeded,
    ) -> Result<RoomFound, FolderFault<'a>>
        ensures limits { IfOk result (IfHere (λ state file. state.room.limits ≡ full_limits)) }
        ensures file { IfOk result (IfHere (λ state file.
            file ≡ record { name = name.now; entries = state.room.entries })) }
    {
        if succeeded.new.name == *name {
            return self.begun_here(rt, alloc, succeeded);
        }
        let Succeeded { old, new } = succeeded;
        if old.name == *name {
            self.found_here(rt, alloc, old, Some(new.name))
        } else {
            Ok(RoomFound::Absent)
        }
    }

    /// The room and its locked file, once the file is settled.
    fn found_here<R: Files<File = File> + Log>(
        &self,
        rt: &R,
        alloc: Global,
        room: FoundRoom<File>,
        later: Option<RoomName>,
    ) -> Result<RoomFound, FolderFault<'a>>
        ensures { IfOk result (IfHere (λ state file. (state ≡ room.state) × (file ≡ room.file))) }
    {
        // Another process may have created an empty file and ended before it synced the folder.
        let may_be_new = room.file.whole == 0;
        let SettledRoom {
            name: _,
            state,
            file,
        } = self.settle_room(rt, alloc, room)?;
        if may_be_new {
            self.sync(rt)?;
        }
        Ok(RoomFound::Here { state, file, later })
    }

    /// A new room, once the end of the room before it is on the disk and then its own file.
    fn begun_here<R: Files<File = File> + Log + Wait>(
        &self,
        rt: &R,
        alloc: Global,
        succeeded: Succeeded,
    ) -> Result<RoomFound, FolderFault<'a>>
        ensures file { IfOk result (IfHere (λ state file.
            file ≡ record { name = succeeded.new.name; entries = state.room.entries })) }
        ensures limits { IfOk result (IfHere (λ state file. state.room.limits ≡ full_limits)) }
    {
        let Succeeded { old, new } = succeeded;
        let FoundRoom { name, state, file } = old;
        let before = count_before_end(&state);
        drop(state);
        self.settle_file(rt, alloc, file)?;
        let newest = self.write_room(rt, alloc, new)?;
        log_renewal(rt, &name, before, &newest);
        self.synced_here(rt, newest)
    }

    /// The newest room and its file, once the folder is synced.
    fn synced_here<R: Files + Log>(
        &self,
        rt: &R,
        newest: SettledRoom,
    ) -> Result<RoomFound, FolderFault<'a>>
        ensures { IfOk result (IfHere (λ state file.
            (state ≡ newest.state) × (file ≡ newest.file))) }
    {
        self.sync(rt)?;
        let SettledRoom {
            name: _,
            state,
            file,
        } = newest;
        Ok(RoomFound::Here {
            state,
            file,
            later: None,
        })
    }

    /// Closes the file of a room, and frees the lock of its chain if no other room of the chain is
    /// open. If so, and the file of a first room is still empty, removes it, so names that were
    /// only tried leave nothing. Logs a warning if that fails.
    ///
    /// # Errors
    /// `NoMemory` if an allocation failed. The file is closed, and stays if it is empty. The lock may
    /// stay.
    pub fn close_room<R: Files<File = File> + Log + Wait>(
        &self,
        rt: &R,
        alloc: Global,
        name: &RoomName,
        file: Synced<File>,
    ) -> Result<(), NoMemory> {
        let is_empty = file.kept_len() == 0;
        drop(file);
        if let Some(locked) = self.unlock_chain(rt, alloc, name)?
            && is_empty
            && name.is_first()
        {
            self.remove_empty(rt, alloc, name, &locked)?;
        }
        Ok(())
    }

    /// Removes the file of a first room, whose lock this open file has, if it is empty and there is
    /// no file of the next room. Whoever opens it meanwhile finds it gone once it has the lock.
    fn remove_empty<R: Files<File = File> + Log>(
        &self,
        rt: &R,
        alloc: Global,
        first: &RoomName,
        locked: &File,
    ) -> Result<(), NoMemory> {
        if let Ok(None) = self.next_with_file(rt, alloc, first)
            && let Ok(about) = locked.metadata()
            && about.len() == 0
        {
            let path = path_of(alloc, self.dir, first.text())?;
            if let Err(why) = fs::remove_file(rt, path.as_str()) {
                warn!(rt; "{path}: an empty file is not removed: {why}");
            }
        }
        Ok(())
    }
}
