//! The rooms of a chain that a server begins with: the newest, and the one before it.

ghost use Rattle.std.specs.Prelude.{◌≡◌, All, IfOk, IfSome};
ghost use Rattle.base_types.specs.RoomNames.{first_name};
ghost use Rattle.base_types.specs.Texts.{Bytes};
ghost use Rattle.rules.specs.Limits.{full_limits};
ghost use Rattle.succession.specs.Succession.{Follows};

use crate::fault::FolderFault;
use crate::folder::{Folder, ReadFile, cannot_keep};
use crate::found::{FoundRoom, count_lines};
use crate::room_file::{len_at, path_of};
use base_types::{MAX_ROOM_NUMBER, NoMemory, RoomName};
use log::{Log, warn};
use record_file::{text_of, whole_len};
use room_core::RoomState;
use rules::Entry;
use std::alloc::Global;
use std::fs::File;
use std::rt::Files;
use std::sync::Wait;
use succession::{Obstacle, Succession, is_nearly_full, succeed, successor_of};
use wire_reader::{ReadFault, read_entry};

/// A new room, of which nothing is written.
#[derive(Drop)]
pub(crate) struct NewRoom {
    pub(crate) name: RoomName,
    pub(crate) state: RoomState,
    ghost limits: { state.room.limits ≡ full_limits },
}

/// A room that has ended, and the new one that follows it.
#[derive(Drop)]
pub(crate) struct Succeeded {
    pub(crate) old: FoundRoom<File>,
    pub(crate) new: NewRoom,
    ghost follows: { ∥ Follows old.state.room new.state.room ∥₁ },
}

/// The newest room of a chain.
#[derive(Drop)]
pub(crate) enum Newest {
    /// It is in its file.
    Found(FoundRoom<File>),
    /// It is to be written.
    Renewed(Succeeded),
}

/// The newest room of a chain, and the file of the room before it, if there is one and the newest
/// is in its own file.
#[derive(Drop)]
pub(crate) struct Chain {
    pub(crate) newest: Newest,
    pub(crate) before: Option<EndedRoom>,
}

/// A room that has ended, by the last line of its file.
#[derive(Drop)]
pub(crate) struct EndedRoom {
    name: RoomName,
    read: ReadFile,
    /// The number of entries that the end names.
    count: u32,
    /// The name of the next room of its chain.
    pub(crate) next: RoomName,
    ghost of_chain: { first_name next ≡ first_name name },
}

impl<'a> Folder<'a> {
    ghost use Rattle.room_folder.specs.steps.Chains.{newest_name};

    /// The room of the chain of this first room that ended last. Reads its file.
    pub(crate) fn last_ended<R: Files<File = File> + Log>(
        &self,
        rt: &R,
        alloc: Global,
        first: &RoomName,
    ) -> Result<Option<EndedRoom>, FolderFault<'a>>
        ensures { IfOk result (λ ended. IfSome ended
            (λ ended. first_name ended.name ≡ first_name first.now)) }
    {
        let names = self.names_with_files(rt, alloc, first)?;
        for name in names.iter().rev() {
            let ended = self.ended_room(rt, alloc, name)?;
            if ended.is_some() {
                return Ok(ended);
            }
        }
        Ok(None)
    }

    /// Reads the newest room of the chain of this first room: the one behind the room that ended
    /// last. Writes nothing. If the newest room is nearly full, it ends, and a new one is the
    /// newest. If the file of the newest does not have what the end of the room before names, the
    /// newest is made again.
    pub(crate) fn chain_behind<R: Files<File = File> + Log + Wait>(
        &self,
        rt: &R,
        alloc: Global,
        first: &RoomName,
        last_ended: Option<EndedRoom>,
    ) -> Result<Chain, FolderFault<'a>>
        requires { IfSome last_ended (λ ended. first_name ended.name ≡ first_name first.now) }
        ensures { IfOk result (λ chain. first_name (newest_name chain.newest)
            ≡ first_name first.now) }
    {
        match last_ended {
            Some(ended) => self.follow(rt, alloc, ended),
            None => {
                let room = self.read_room(rt, alloc, first)?;
                let newest = self.go_on(rt, alloc, room)?;
                Ok(Chain {
                    newest,
                    before: None,
                })
            }
        }
    }

    /// The names of the chain's rooms, in order, up to the last one that has a file. The first room
    /// needs none.
    fn names_with_files<R: Files<File = File> + Log>(
        &self,
        rt: &R,
        alloc: Global,
        first: &RoomName,
    ) -> Result<Vec<RoomName>, FolderFault<'a>>
        ensures { IfOk result (λ names.
            All (λ name. first_name name ≡ first_name first.now) names.items) }
    {
        let mut names = Vec::new(alloc);
        let mut next = Some(first.copy(alloc)?);
        for _ in 0..MAX_ROOM_NUMBER {
            let Some(name) = next else {
                break;
            };
            next = self.next_with_file(rt, alloc, &name)?;
            names.push(name)?;
        }
        Ok(names)
    }

    /// The name of the next room of the chain, if that has a file.
    pub(crate) fn next_with_file<R: Files<File = File> + Log>(
        &self,
        rt: &R,
        alloc: Global,
        name: &RoomName,
    ) -> Result<Option<RoomName>, FolderFault<'a>>
        ensures { IfOk result (λ next. IfSome next
            (λ next. first_name next ≡ first_name name.now)) }
    {
        let Some(next) = name.successor(alloc)? else {
            return Ok(None);
        };
        match self.len_of(rt, alloc, &next)? {
            Some(_) => Ok(Some(next)),
            None => Ok(None),
        }
    }

    /// The number of bytes of a room's file, if there is one.
    fn len_of<R: Files<File = File> + Log>(
        &self,
        rt: &R,
        alloc: Global,
        name: &RoomName,
    ) -> Result<Option<u64>, FolderFault<'a>> {
        let path = path_of(alloc, self.dir, name.text())?;
        match len_at(rt, path.as_str()) {
            Ok(len) => Ok(len),
            Err(why) => Err(cannot_keep(rt, self.dir, path.as_str(), &why)),
        }
    }

    /// The room of this name, if it has ended.
    fn ended_room<R: Files<File = File> + Log>(
        &self,
        rt: &R,
        alloc: Global,
        name: &RoomName,
    ) -> Result<Option<EndedRoom>, FolderFault<'a>>
        ensures { IfOk result (λ ended. IfSome ended (λ ended. ended.name ≡ name.now)) }
    {
        let read = self.read_file(rt, alloc, name)?;
        let Some(count) = count_at_last_line(alloc, &read.bytes)? else {
            return Ok(None);
        };
        let Some(next) = name.successor(alloc)? else {
            let line = count_lines(&read.bytes);
            return Err(FolderFault::BadRecord {
                path: read.path,
                line,
            });
        };
        let name = name.copy(alloc)?;
        Ok(Some(EndedRoom {
            name,
            read,
            count,
            next,
        }))
    }

    /// The room that has ended.
    pub(crate) fn restore_ended<R: Log + Wait>(
        &self,
        rt: &R,
        alloc: Global,
        ended: EndedRoom,
    ) -> Result<FoundRoom<File>, FolderFault<'a>>
        ensures { IfOk result (λ found. found.name ≡ ended.name) }
    {
        let EndedRoom {
            name,
            read,
            count: _,
            next: _,
        } = ended;
        self.restore_file(rt, alloc, &name, read)
    }

    /// The chain whose newest room follows one that has ended.
    pub(crate) fn follow<R: Files<File = File> + Log + Wait>(
        &self,
        rt: &R,
        alloc: Global,
        ended: EndedRoom,
    ) -> Result<Chain, FolderFault<'a>>
        ensures { IfOk result (λ chain. first_name (newest_name chain.newest)
            ≡ first_name ended.name) }
    {
        let read = self.read_file(rt, alloc, &ended.next)?;
        if has_lines(&read, ended.count) {
            self.go_on_behind(rt, alloc, ended, read)
        } else {
            self.make_again(rt, alloc, ended, read)
        }
    }

    /// The chain whose newest room follows one that has ended, and is in its file.
    fn go_on_behind<R: Files<File = File> + Log + Wait>(
        &self,
        rt: &R,
        alloc: Global,
        ended: EndedRoom,
        read: ReadFile,
    ) -> Result<Chain, FolderFault<'a>>
        ensures { IfOk result (λ chain. first_name (newest_name chain.newest)
            ≡ first_name ended.name) }
    {
        let room = self.restore_file(rt, alloc, &ended.next, read)?;
        let newest = self.go_on(rt, alloc, room)?;
        Ok(Chain {
            newest,
            before: Some(ended),
        })
    }

    /// The chain whose newest room is made from the one before it, which has ended. Its file may
    /// have the beginning of its record. Anything else there is not lost: its line is bad.
    fn make_again<R: Log + Wait>(
        &self,
        rt: &R,
        alloc: Global,
        ended: EndedRoom,
        read: ReadFile,
    ) -> Result<Chain, FolderFault<'a>>
        ensures { IfOk result (λ chain. first_name (newest_name chain.newest)
            ≡ first_name ended.name) }
    {
        let next = ended.next.copy(alloc)?;
        let old = self.restore_ended(rt, alloc, ended)?;
        let succeeded = self.with_successor(alloc, old, next)?;
        self.check_beginning(alloc, &succeeded.new, read)?;
        Ok(Chain {
            newest: Newest::Renewed(succeeded),
            before: None,
        })
    }

    /// A room that has ended, with the new one of this name that follows it.
    fn with_successor(
        &self,
        alloc: Global,
        old: FoundRoom<File>,
        next: RoomName,
    ) -> Result<Succeeded, FolderFault<'a>>
        ensures { IfOk result (λ succeeded. succeeded.new.name ≡ next) }
    {
        match new_room(alloc, &old, next)? {
            Some(new) => Ok(Succeeded { old, new }),
            None => Err(self.bad_end(alloc, &old)?),
        }
    }

    /// Fails if the file has anything but the beginning of the new room's record.
    fn check_beginning(
        &self,
        alloc: Global,
        new: &NewRoom,
        read: ReadFile,
    ) -> Result<(), FolderFault<'a>> {
        let text = text_of(alloc, new.state.entries())?;
        match other_line(text.as_bytes(), &read.bytes) {
            Some(line) => Err(FolderFault::BadRecord {
                path: read.path,
                line,
            }),
            None => Ok(()),
        }
    }

    /// The fault that the end of a room's record cannot be followed.
    fn bad_end(
        &self,
        alloc: Global,
        room: &FoundRoom<File>,
    ) -> Result<FolderFault<'a>, FolderFault<'a>> {
        Ok(FolderFault::BadRecord {
            path: path_of(alloc, self.dir, room.name.text())?,
            line: room.state.entries().len(),
        })
    }

    /// The newest room, which is this one, or follows it if it is to be renewed.
    pub(crate) fn go_on<R: Files<File = File> + Log + Wait>(
        &self,
        rt: &R,
        alloc: Global,
        room: FoundRoom<File>,
    ) -> Result<Newest, FolderFault<'a>>
        ensures { IfOk result (λ newest. first_name (newest_name newest) ≡ first_name room.name) }
    {
        if !is_nearly_full(&room.state) {
            return Ok(Newest::Found(room));
        }
        match self.free_successor(rt, alloc, &room.name)? {
            Ok(name) => self.renew(rt, alloc, room, name),
            Err(obstacle) => {
                warn_of(rt, &room.name, obstacle);
                Ok(Newest::Found(room))
            }
        }
    }

    /// Returns whether nothing lies where the file of this room is to be. The log says why not if
    /// that cannot be told.
    pub fn is_free<R: Files<File = File> + Log>(
        &self,
        rt: &R,
        alloc: Global,
        name: &RoomName,
    ) -> bool {
        matches!(self.len_of(rt, alloc, name), Ok(None | Some(0)))
    }

    /// The name of the next room, if it has one and nothing lies where its file is to be.
    fn free_successor<R: Files<File = File> + Log>(
        &self,
        rt: &R,
        alloc: Global,
        name: &RoomName,
    ) -> Result<Result<RoomName, Obstacle>, FolderFault<'a>>
        ensures { IfOk result (λ found. IfOk found
            (λ next. first_name next ≡ first_name name.now)) }
    {
        let Some(next) = name.successor(alloc)? else {
            return Ok(Err(Obstacle::NoName));
        };
        match self.len_of(rt, alloc, &next)? {
            None | Some(0) => Ok(Ok(next)),
            Some(_) => Ok(Err(Obstacle::NotFree)),
        }
    }

    /// The newest room, which is a renewal of this one and has this name, if it can be renewed.
    fn renew<R: Log + Wait>(
        &self,
        rt: &R,
        alloc: Global,
        room: FoundRoom<File>,
        name: RoomName,
    ) -> Result<Newest, FolderFault<'a>>
        requires { first_name name ≡ first_name room.name }
        ensures { IfOk result (λ newest. first_name (newest_name newest) ≡ first_name room.name) }
    {
        let FoundRoom {
            name: old_name,
            state,
            file,
        } = room;
        match succeed(alloc, state)? {
            Succession::Renewed { old, new } => {
                let old = FoundRoom {
                    name: old_name,
                    file: file.and_last(rt, alloc, &old)?,
                    state: old,
                };
                let new = NewRoom { name, state: new };
                Ok(Newest::Renewed(Succeeded { old, new }))
            }
            Succession::Declined(state, obstacle) => {
                warn_of(rt, &old_name, obstacle);
                Ok(Newest::Found(FoundRoom {
                    name: old_name,
                    state,
                    file,
                }))
            }
        }
    }
}

/// The new room of this name that follows one that has ended, if there is one.
fn new_room(
    alloc: Global,
    old: &FoundRoom<File>,
    name: RoomName,
) -> Result<Option<NewRoom>, NoMemory>
    ensures name { IfOk result (λ found. IfSome found (λ new. new.name ≡ name)) }
    ensures follows { IfOk result (λ found. IfSome found
        (λ new. Follows old.now.state.room new.state.room)) }
{
    match successor_of(alloc, &old.state)? {
        Some(state) => Ok(Some(NewRoom { name, state })),
        None => Ok(None),
    }
}

/// Returns whether there is a file, with so many whole lines at least.
fn has_lines(read: &ReadFile, count: u32) -> bool {
    read.file.is_some() && count_lines(&read.bytes) >= count as usize
}

/// The number of entries that the end of a record names, by the last whole line of its file: `None`
/// if that is no end.
fn count_at_last_line(alloc: Global, bytes: &[u8]) -> Result<Option<u32>, NoMemory> {
    match read_entry(alloc, last_line(bytes)) {
        Ok(Entry::Next(count)) => Ok(Some(count)),
        Ok(Entry::Join(_) | Entry::Operation(_)) | Err(ReadFault::Bad) => Ok(None),
        Err(ReadFault::NoMemory) => Err(NoMemory),
    }
}

/// The last whole line without its line feed, empty if there is none.
fn last_line(bytes: &[u8]) -> &[u8] {
    let Some(end) = whole_len(bytes).checked_sub(1) else {
        return &[];
    };
    let lines = &bytes[..end];
    match lines.iter().rposition(|byte| *byte == b'\n') {
        Some(before) => &lines[before + 1..],
        None => lines,
    }
}

/// The number of the first line that is another than in the text, counted from 1, unless the bytes
/// are the beginning of the text.
fn other_line(text: &[u8], bytes: &[u8]) -> Option<usize> {
    for (place, byte) in bytes.iter().enumerate() {
        match text.get(place) {
            Some(same) if *same == *byte => {}
            _ => return Some(count_lines(&bytes[..place]) + 1),
        }
    }
    None
}

/// Warns that a room that is nearly full goes on as it is.
fn warn_of<R: Log>(rt: &R, name: &RoomName, obstacle: Obstacle) {
    let text = name.text();
    warn!(rt; "room {text} cannot be renewed: {obstacle}");
}
