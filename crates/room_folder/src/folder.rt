//! The folder of `--keep`: its lock, and the files of rooms in it as they are read.
//!
//! Whoever reads or writes the file of a room has the lock of its chain, or the folder alone.

ghost use Rattle.std.specs.Prelude.{◌≡◌, All, IfOk, map};
ghost use Rattle.rules.specs.Limits.{full_limits};

use crate::chain_locks::ChainLocks;
use crate::fault::FolderFault;
use crate::found::{FoundRoom, RestoreFault, bytes_of, restore_bytes};
use crate::room_file::{open_there, path_of};
use base_types::RoomName;
use log::{Log, error, info};
use room_core::RoomState;
use std::alloc::Global;
use std::fmt::Display;
use std::fs::{File, TryLockError};
use std::io::ErrorKind;
use std::marker::Model;
use std::rt::Files;
use std::sync::{Mutex, Wait};
use std::{fs, io};

/// A folder that keeps rooms. The file ROOM.record has the entries of a room, one per line. No
/// other process holds the folder while this value exists, or only others that share it. Then each
/// chain of which a room is open is locked. Contracts see the folder's path.
#[derive(Drop)]
pub struct Folder<'a> {
    pub(crate) dir: &'a str,
    opened: File,
    hold: Hold,
    /// The locks of chains, if others may have the folder.
    pub(crate) locks: Mutex<ChainLocks>,
}

/// How a process has the folder.
#[derive(Clone, Copy, Debug, PartialEq, Eq)]
enum Hold {
    /// No other process has it.
    Alone,
    /// Others may have it, but none alone.
    Shared,
}

impl<'a> Model for Folder<'a> {
    ghost use Rattle.std.specs.Prelude.{List, ℕ};

    ghost Value = { List ℕ };

    ghost view = { λ folder. folder.dir.now };
}

/// Why a file that fails to be read cannot be used.
pub(crate) const UNREADABLE: &str = "it can't be read";

/// Opens the folder. Fails for anything but a folder.
fn open_folder<R: Files<File = File>>(rt: &R, dir: &str) -> io::Result<File> {
    if !fs::metadata(rt, dir)?.is_dir() {
        return Err(io::Error::from(ErrorKind::NotADirectory));
    }
    File::open(rt, dir)
}

/// A room's file as it was read.
#[derive(Drop)]
pub(crate) struct ReadFile {
    pub(crate) path: String,
    /// The open file, if there is one.
    pub(crate) file: Option<File>,
    pub(crate) bytes: Vec<u8>,
}

/// Locks the folder.
fn lock_folder(opened: &File, hold: Hold) -> Result<(), TryLockError> {
    match hold {
        Hold::Alone => opened.try_lock(),
        Hold::Shared => opened.try_lock_shared(),
    }
}

/// Logs which file fails and why. Returns the fault that the folder cannot keep rooms.
pub(crate) fn cannot_keep<'a, R: Log, W: Display>(
    rt: &R,
    dir: &'a str,
    path: &str,
    why: &W,
) -> FolderFault<'a> {
    error!(rt; "{path}: {why}");
    FolderFault::CannotKeep(dir)
}

/// Logs how many entries a room has, if it has any.
pub(crate) fn log_entries<R: Log>(rt: &R, path: &str, room: &RoomState) {
    let entries = room.entries().len();
    if entries > 0 {
        info!(rt; "{path}: {entries} entries");
    }
}

impl<'a> Folder<'a> {
    /// Opens the folder and locks it.
    ///
    /// # Errors
    /// `CannotKeep` if it is no folder or cannot be opened.
    /// `KeptByAnother` if another process holds it.
    pub fn open<R: Files<File = File> + Log>(
        rt: &R,
        alloc: Global,
        dir: &'a str,
    ) -> Result<Folder<'a>, FolderFault<'a>>
        ensures { IfOk result (λ folder. folder ≡ dir.now) }
    {
        Folder::open_as(rt, alloc, dir, Hold::Alone)
    }

    /// Opens the folder and locks it together with others that call this: several processes may
    /// share a folder, but not with one that has it alone. Then each chain is locked too.
    ///
    /// # Errors
    /// `CannotKeep` if it is no folder or cannot be opened.
    /// `KeptByAnother` if another process has it alone.
    pub fn open_shared<R: Files<File = File> + Log>(
        rt: &R,
        alloc: Global,
        dir: &'a str,
    ) -> Result<Folder<'a>, FolderFault<'a>>
        ensures { IfOk result (λ folder. folder ≡ dir.now) }
    {
        Folder::open_as(rt, alloc, dir, Hold::Shared)
    }

    /// Opens the folder and locks it in this way.
    fn open_as<R: Files<File = File> + Log>(
        rt: &R,
        alloc: Global,
        dir: &'a str,
        hold: Hold,
    ) -> Result<Folder<'a>, FolderFault<'a>>
        ensures { IfOk result (λ folder. folder ≡ dir.now) }
    {
        let opened = match open_folder(rt, dir) {
            Ok(opened) => opened,
            Err(why) => return Err(cannot_keep(rt, dir, dir, &why)),
        };
        match lock_folder(&opened, hold) {
            Ok(()) => Ok(Folder {
                dir,
                opened,
                hold,
                locks: Mutex::new(ChainLocks::none(alloc)),
            }),
            Err(TryLockError::WouldBlock) => Err(FolderFault::KeptByAnother(dir)),
            Err(TryLockError::Error(why)) => Err(cannot_keep(rt, dir, dir, &why)),
        }
    }

    /// Returns whether other processes may have the folder.
    pub(crate) fn is_shared(&self) -> bool {
        self.hold == Hold::Shared
    }

    /// Reads the file of a room, and the room from it.
    pub(crate) fn read_room<R: Files<File = File> + Log + Wait>(
        &self,
        rt: &R,
        alloc: Global,
        name: &RoomName,
    ) -> Result<FoundRoom<File>, FolderFault<'a>>
        ensures { IfOk result (λ found. found.name ≡ name.now) }
    {
        let read = self.read_file(rt, alloc, name)?;
        self.restore_file(rt, alloc, name, read)
    }

    /// Reads the file of a room, if there is one.
    pub(crate) fn read_file<R: Files<File = File> + Log>(
        &self,
        rt: &R,
        alloc: Global,
        name: &RoomName,
    ) -> Result<ReadFile, FolderFault<'a>> {
        let path = path_of(alloc, self.dir, name.text())?;
        let file = match open_there(rt, path.as_str()) {
            Ok(file) => file,
            Err(why) => return Err(cannot_keep(rt, self.dir, path.as_str(), &why)),
        };
        match bytes_of(alloc, file) {
            Ok((file, bytes)) => Ok(ReadFile { path, file, bytes }),
            Err(fault) => Err(self.fault_of(rt, path, fault)),
        }
    }

    /// The room of this name from its file.
    pub(crate) fn restore_file<R: Log + Wait>(
        &self,
        rt: &R,
        alloc: Global,
        name: &RoomName,
        read: ReadFile,
    ) -> Result<FoundRoom<File>, FolderFault<'a>>
        ensures { IfOk result (λ found. found.name ≡ name.now) }
    {
        let ReadFile { path, file, bytes } = read;
        match restore_bytes(rt, alloc, name, file, bytes.as_slice()) {
            Ok(found) => Ok(found),
            Err(fault) => Err(self.fault_of(rt, path, fault)),
        }
    }

    /// The fault of the start for a room that cannot be restored.
    fn fault_of<R: Log>(&self, rt: &R, path: String, fault: RestoreFault) -> FolderFault<'a> {
        match fault {
            RestoreFault::BadLine(line) => FolderFault::BadRecord { path, line },
            RestoreFault::Unreadable => cannot_keep(rt, self.dir, path.as_str(), &UNREADABLE),
            RestoreFault::NoMemory => FolderFault::NoMemory,
        }
    }

    /// Syncs the folder, so that the files that were created in it last.
    pub(crate) fn sync<R: Log>(&self, rt: &R) -> Result<(), FolderFault<'a>> {
        match self.opened.sync_all() {
            Ok(()) => Ok(()),
            Err(why) => Err(cannot_keep(rt, self.dir, self.dir, &why)),
        }
    }
}
