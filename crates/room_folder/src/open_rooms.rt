//! The rooms that a server begins with, of the chains that the command line names.

ghost use Rattle.std.specs.Prelude.{◌≡◌, All, IfOk, map};
ghost use mathlib.Core.List.{IsPrefix};
ghost use Rattle.base_types.specs.RoomNames.{first_name};
ghost use Rattle.rules.specs.Limits.{full_limits};

use crate::chain::{Chain, Newest, Succeeded};
use crate::fault::FolderFault;
use crate::folder::Folder;
use crate::found::FoundRoom;
use crate::settling::SettledRoom;
use base_types::{NoMemory, RoomName};
use journal::Synced;
use log::{Log, info};
use restore::RestoredFile;
use room_core::RoomState;
use std::alloc::Global;
use std::fs::File;
use std::rt::Files;
use std::sync::Wait;

/// Rooms that are open: their names, the rooms with their records, and their files, all of them on
/// the disk. Each list has the same order.
#[derive(Drop)]
pub struct OpenRooms {
    pub names: Vec<RoomName>,
    pub states: Vec<RoomState>,
    pub files: Vec<RestoredFile<Synced<File>>>,
}

/// The lists of these rooms, in their order.
fn lists_of(alloc: Global, rooms: Vec<SettledRoom>) -> Result<OpenRooms, NoMemory>
    ensures names { IfOk result (λ lists.
        lists.names.items ≡ map (λ room. room.name) rooms.items) }
    ensures files { IfOk result (λ lists.
        map (λ file. file.name) lists.files.items ≡ lists.names.items) }
    ensures records { IfOk result (λ lists. map (λ state. state.room.entries) lists.states.items
        ≡ map (λ file. file.entries) lists.files.items) }
    ensures limits { IfOk result (λ lists.
        All (λ state. state.room.limits ≡ full_limits) lists.states.items) }
{
    let mut names = Vec::with_capacity(alloc, rooms.len())?;
    let mut states = Vec::with_capacity(alloc, rooms.len())?;
    let mut files = Vec::with_capacity(alloc, rooms.len())?;
    for room in rooms {
        let SettledRoom { name, state, file } = room;
        names.push(name)?;
        states.push(state)?;
        files.push(file)?;
    }
    Ok(OpenRooms {
        names,
        states,
        files,
    })
}

/// The rooms of a chain that a server begins with, as their files were read.
#[derive(Drop)]
struct ReadChain {
    newest: Newest,
    /// The room before the newest, if both are in their files.
    before: Option<FoundRoom<File>>,
}

/// The rooms of a chain that a server begins with, whose files are settled.
#[derive(Drop)]
struct SettledChain {
    newest: SettledRoom,
    before: Option<SettledRoom>,
}

impl<'a> Folder<'a> {
    ghost use Rattle.room_folder.specs.steps.Chains.{newest_name};

    /// Opens the rooms that a server of these names begins with: for each name the newest room of
    /// its chain, and behind these, for each chain that has one, the room before the newest. They
    /// have the records that their files have, under full limits.
    ///
    /// A newest room that is nearly full is renewed if that helps. All files are read before one is
    /// changed. Then absent files are created, each file is cut to its whole lines, and all of them
    /// and the folder are synced. If other processes may have the folder, each chain is locked
    /// until the folder is dropped, which creates the file of its first room. The log has a line
    /// for each room that begins with a record, for each file that is cut, and for each room that
    /// is renewed or cannot be renewed.
    ///
    /// # Errors
    /// `CannotKeep` if a file cannot be opened, read, locked, written, cut or synced, or has more than
    /// 1,073,741,824 bytes. The log says why.
    /// `RoomKeptByAnother` if another process has the lock of a chain.
    /// `BadRecord` if the whole lines of a file are no legal record, or if its end names another
    /// number of entries than a renewal has.
    /// `NoMemory` if an allocation failed.
    pub fn open_rooms<R: Files<File = File> + Log + Wait>(
        &self,
        rt: &R,
        alloc: Global,
        names: &[RoomName],
    ) -> Result<OpenRooms, FolderFault<'a>>
        // There is a file for each room, of its name and with its record:
        ensures names { IfOk result (λ rooms.
            map (λ file. file.name) rooms.files.items ≡ rooms.names.items) }
        ensures records { IfOk result (λ rooms. map (λ state. state.room.entries) rooms.states.items
            ≡ map (λ file. file.entries) rooms.files.items) }
        ensures limits { IfOk result (λ rooms.
            All (λ state. state.room.limits ≡ full_limits) rooms.states.items) }
        // The first rooms are of the chains of the names, in order:
        ensures chains { IfOk result (λ rooms.
            IsPrefix (map first_name names.now) (map first_name rooms.names.items)) }
    {
        let chains = self.read_chains(rt, alloc, names)?;
        let rooms = self.settle_chains(rt, alloc, chains)?;
        if !rooms.is_empty() {
            self.sync(rt)?;
        }
        Ok(lists_of(alloc, rooms)?)
    }

    /// Reads the rooms of each chain.
    fn read_chains<R: Files<File = File> + Log + Wait>(
        &self,
        rt: &R,
        alloc: Global,
        names: &[RoomName],
    ) -> Result<Vec<ReadChain>, FolderFault<'a>>
        ensures { IfOk result (λ chains.
            map (λ chain. first_name (newest_name chain.newest)) chains.items
            ≡ map first_name names.now) }
    {
        let mut chains = Vec::with_capacity(alloc, names.len())?;
        for name in names {
            chains.push(self.read_chain(rt, alloc, name)?)?;
        }
        Ok(chains)
    }

    /// Reads the newest room of the chain of this first room, and the room before it.
    fn read_chain<R: Files<File = File> + Log + Wait>(
        &self,
        rt: &R,
        alloc: Global,
        first: &RoomName,
    ) -> Result<ReadChain, FolderFault<'a>>
        ensures { IfOk result (λ chain. first_name (newest_name chain.newest)
            ≡ first_name first.now) }
    {
        if self.is_shared() {
            self.lock_chain(rt, alloc, first)?;
        }
        let last_ended = self.last_ended(rt, alloc, first)?;
        let Chain { newest, before } = self.chain_behind(rt, alloc, first, last_ended)?;
        let before = match before {
            Some(ended) => Some(self.restore_ended(rt, alloc, ended)?),
            None => None,
        };
        Ok(ReadChain { newest, before })
    }

    /// Settles the files of all rooms. The newest rooms come first.
    fn settle_chains<R: Files<File = File> + Log + Wait>(
        &self,
        rt: &R,
        alloc: Global,
        chains: Vec<ReadChain>,
    ) -> Result<Vec<SettledRoom>, FolderFault<'a>>
        ensures { IfOk result (λ rooms.
            IsPrefix (map (λ chain. newest_name chain.newest) chains.items)
            (map (λ room. room.name) rooms.items)) }
    {
        let mut rooms = Vec::with_capacity(alloc, chains.len())?;
        let mut others = Vec::with_capacity(alloc, chains.len())?;
        for chain in chains {
            let SettledChain { newest, before } = self.settle_chain(rt, alloc, chain)?;
            rooms.push(newest)?;
            if let Some(before) = before {
                others.push(before)?;
            }
        }
        rooms.append(&mut others)?;
        Ok(rooms)
    }

    /// Settles the files of a chain.
    fn settle_chain<R: Files<File = File> + Log + Wait>(
        &self,
        rt: &R,
        alloc: Global,
        chain: ReadChain,
    ) -> Result<SettledChain, FolderFault<'a>>
        ensures { IfOk result (λ settled. settled.newest.name ≡ newest_name chain.newest) }
    {
        let ReadChain { newest, before } = chain;
        match newest {
            Newest::Found(newest) => self.settle_found(rt, alloc, newest, before),
            Newest::Renewed(succeeded) => self.settle_renewal(rt, alloc, succeeded),
        }
    }

    /// Settles the files of the newest room of a chain and of the room before it.
    fn settle_found<R: Files<File = File> + Log>(
        &self,
        rt: &R,
        alloc: Global,
        newest: FoundRoom<File>,
        before: Option<FoundRoom<File>>,
    ) -> Result<SettledChain, FolderFault<'a>>
        ensures { IfOk result (λ settled. settled.newest.name ≡ newest.name) }
    {
        let before = match before {
            Some(before) => Some(self.settle_room(rt, alloc, before)?),
            None => None,
        };
        let newest = self.settle_room(rt, alloc, newest)?;
        Ok(SettledChain { newest, before })
    }

    /// Settles the files of a room that has ended and of the new one that follows it. The end comes
    /// first, since nobody may be in the new room before it is on the disk.
    fn settle_renewal<R: Files<File = File> + Log + Wait>(
        &self,
        rt: &R,
        alloc: Global,
        succeeded: Succeeded,
    ) -> Result<SettledChain, FolderFault<'a>>
        ensures { IfOk result (λ settled. settled.newest.name ≡ succeeded.new.name) }
    {
        let Succeeded { old, new } = succeeded;
        let before = self.settle_room(rt, alloc, old)?;
        let newest = self.write_room(rt, alloc, new)?;
        log_renewal(rt, &before.name, count_before_end(&before.state), &newest);
        Ok(SettledChain {
            newest,
            before: Some(before),
        })
    }
}

/// The number of entries of a room that has ended, without its end.
pub(crate) fn count_before_end(ended: &RoomState) -> usize {
    ended.entries().len().saturating_sub(1)
}

/// Logs that the room of this name, which had so many entries before its end, was renewed.
pub(crate) fn log_renewal<R: Log>(rt: &R, name: &RoomName, before: usize, new: &SettledRoom) {
    let (old_name, new_name) = (name.text(), new.name.text());
    let after = new.state.entries().len();
    info!(rt; "room {old_name} renewed as {new_name}: {before} entries to {after}");
}
