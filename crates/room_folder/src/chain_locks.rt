//! The locks of chains: who has a room of a chain has the lock of the chain.
//!
//! The lock of a chain is that of the file of its first room. So the process that has a room has
//! the rooms that follow it, too.

use crate::fault::FolderFault;
use crate::folder::{Folder, cannot_keep};
use crate::room_file::{LockedFile, lock_file, lock_or_create, path_of};
use base_types::{NoMemory, RoomName};
use indexmap::IndexMap;
use log::Log;
use std::alloc::Global;
use std::fs::File;
use std::rt::Files;
use std::sync::Wait;

/// The locks that this process has, by the names of the first rooms.
#[derive(Drop)]
pub(crate) struct ChainLocks {
    locks: IndexMap<RoomName, ChainLock>,
}

/// The lock of a chain.
#[derive(Drop)]
struct ChainLock {
    /// The file of the first room, which has the lock until it is dropped.
    file: File,
    /// The number of rooms of the chain that are open.
    rooms: usize,
}

impl ChainLocks {
    /// No locks.
    pub(crate) fn none(alloc: Global) -> ChainLocks {
        ChainLocks {
            locks: IndexMap::new(alloc),
        }
    }

    /// One more room of the chain is open. Returns false if this process does not have the lock.
    fn add_room(&mut self, first: &RoomName) -> bool {
        match self.locks.get_mut(first) {
            Some(lock) => {
                lock.rooms = lock.rooms.saturating_add(1);
                true
            }
            None => false,
        }
    }

    /// One room less of the chain is open. Gives the file if it was the last one.
    fn remove_room(&mut self, first: &RoomName) -> Option<File> {
        let lock = self.locks.get_mut(first)?;
        lock.rooms = lock.rooms.saturating_sub(1);
        if lock.rooms > 0 {
            return None;
        }
        let ChainLock { file, rooms: _ } = self.locks.swap_remove(first)?;
        Some(file)
    }

    /// This process has the lock of a chain of which one room is open.
    fn insert(&mut self, first: RoomName, file: File) -> Result<(), NoMemory> {
        match self.locks.insert(first, ChainLock { file, rooms: 1 }) {
            Ok(_) => Ok(()),
            Err(_) => Err(NoMemory),
        }
    }
}

impl<'a> Folder<'a> {
    /// Takes the lock of the chain of this room for one more room. Creates the file of a first
    /// room. Returns false if the room is not the first, and the first has no file.
    pub(crate) fn lock_chain<R: Files<File = File> + Log + Wait>(
        &self,
        rt: &R,
        alloc: Global,
        name: &RoomName,
    ) -> Result<bool, FolderFault<'a>> {
        let first = name.first(alloc)?;
        let path = path_of(alloc, self.dir, first.text())?;
        // Held while the file is opened, so that no other thread of this process finds it locked.
        let mut locks = self.locks.lock(rt);
        if locks.add_room(&first) {
            return Ok(true);
        }
        let locked = if name.is_first() {
            lock_or_create(rt, path.as_str())
        } else {
            lock_file(rt, path.as_str())
        };
        match locked {
            Ok(LockedFile::Here(file)) => {
                locks.insert(first, file)?;
                Ok(true)
            }
            Ok(LockedFile::Gone) => Ok(false),
            Ok(LockedFile::Elsewhere) => Err(FolderFault::RoomKeptByAnother { path }),
            Err(why) => Err(cannot_keep(rt, self.dir, path.as_str(), &why)),
        }
    }

    /// Gives the lock of the chain of this room back for one room. If no room of the chain is open
    /// then, gives the file of the first room, which has the lock until it is dropped.
    pub(crate) fn unlock_chain(
        &self,
        rt: &impl Wait,
        alloc: Global,
        name: &RoomName,
    ) -> Result<Option<File>, NoMemory> {
        let first = name.first(alloc)?;
        Ok(self.locks.lock(rt).remove_room(&first))
    }
}
