//! The desk of a room: the room's file, which threads share.

ghost use Rattle.std.specs.Prelude.{◌≡◌, IfOk, IfSome, OnErr};
ghost use Rattle.keeping.specs.Kept.{IsKeptIn};

use crate::doors::Doors;
use crate::file::{Clean, Kept, RoomFile, keep_fault};
use base_types::{NoMemory, RoomName};
use journal::{Journal, JournalFault};
use keeper::{Change, Failing, FileSync, KeepFault};
use room_lock::{CallFault, Opening, Prefix, RoomHistories, Rooms};
use std::alloc::Global;
use std::fmt::Write;
use std::io;
use std::sync::{Mutex, Wait};
use std::time::{Clock, Duration, Instant};

/// A room's file, and what it keeps. One thread at a time has the file, and writes for all that
/// wait.
#[derive(Drop)]
struct Desk<P: RoomHistories, J: Journal> {
    /// The name of the room.
    name: RoomName,
    kept: Kept<P>,
    /// The proof that the file is clean since the last attempt, or why that failed.
    state: Result<Clean, KeepFault>,
    /// `None` while a thread writes.
    file: Option<RoomFile<P, J>>,
    /// The number of entries of the longest prefix that an attempt was asked for.
    asked: u64,
    /// An attempt was asked for that has not begun. The room then stands in the orders, or a thread
    /// writes.
    is_ordered: bool,
    /// A room waits for space until the next attempt ends.
    is_awaited: bool,
    /// The number of ticks since somebody was in the room.
    idle: u32,
    /// The number of entries from which on it is looked again whether the room is nearly full.
    look_at: u64,
}

impl<P: RoomHistories, J: Journal> Desk<P, J> {
    /// The desk of the room of this name, whose file no thread has.
    fn new(name: RoomName, file: RoomFile<P, J>) -> Desk<P, J> {
        Desk {
            name,
            kept: file.receipt().copy(),
            state: file.clean().ok_or(KeepFault::NotKept),
            file: Some(file),
            asked: 0,
            is_ordered: false,
            is_awaited: false,
            idle: 0,
            look_at: 0,
        }
    }

    /// The opening of the room.
    fn opening(&self) -> &Opening<P>
        ensures { result.now ≡ self.now.kept.opening }
    {
        self.kept.prefix().opening()
    }

    /// Consumes the desk for the journal of the room's file, unless a thread has the file.
    fn into_journal(self) -> Option<J> {
        Some(self.file?.into_journal())
    }

    /// Returns whether nobody is in the room, its file keeps all of its record, and no thread has
    /// the file. The room is open on demand.
    fn is_idle(&self, rt: &impl Wait, rooms: &Rooms<P>) -> bool {
        self.state.is_ok()
            && self.file.is_some()
            && !self.is_ordered
            && rooms.is_idle(rt, self.kept.prefix())
    }
}

/// Whether a room is left that its file does not keep yet.
#[derive(Clone, Copy, Debug, Drop, PartialEq, Eq)]
pub(crate) enum Left {
    /// Somebody is in it, its last attempt failed, or no room is open here.
    No,
    /// It is, and an attempt to keep it is ordered or being made.
    Ordered,
    /// It is, and an attempt to keep it is to be ordered.
    New,
}

/// What a thread has of a room that it closes.
#[derive(Drop)]
pub(crate) struct Closing<J> {
    pub(crate) name: RoomName,
    pub(crate) journal: J,
}

/// The place of a room: its desk, if the room is open.
#[derive(Drop)]
pub(crate) struct Place<P: RoomHistories, J: Journal> {
    desk: Mutex<Option<Desk<P, J>>>,
}

/// What is known of a prefix of a room's record.
#[derive(Drop)]
pub(crate) enum Standing<P: RoomHistories> {
    /// It is kept.
    Kept(Kept<P>),
    /// An attempt to keep it will be made.
    Ordered,
    /// An attempt to keep it is to be ordered.
    New,
    /// The room is not open here.
    Absent,
}

/// What an attempt leads to.
#[derive(Drop)]
pub(crate) struct Outcome {
    /// What it changed.
    pub(crate) change: Option<Change>,
    /// What came of the write and the sync, if there was something to write.
    pub(crate) sync: Option<FileSync>,
    /// More is to be kept.
    pub(crate) is_ordered: bool,
    /// A room waits for space until this attempt ends.
    pub(crate) is_awaited: bool,
}

impl<P: RoomHistories, J: Journal + Drop> Place<P, J> {
    ghost use Rattle.keeping.specs.steps.Standings.{IfKept};

    /// No room is open here.
    pub(crate) fn new() -> Place<P, J> {
        Place {
            desk: Mutex::new(None),
        }
    }

    /// The room of this name is open here from now on. No thread has its file.
    pub(crate) fn put(&self, rt: &impl Wait, name: RoomName, file: RoomFile<P, J>) {
        *self.desk.lock(rt) = Some(Desk::new(name, file));
    }

    /// What is known of this prefix of the room's record. Where it gives `New`, the caller orders
    /// an attempt, and nobody else does until that is begun.
    ///
    /// # Errors
    /// Why the last attempt failed, if the prefix is not kept.
    pub(crate) fn standing(
        &self,
        rt: &impl Wait,
        reported: &Prefix<P>,
    ) -> Result<Standing<P>, KeepFault>
        ensures { IfOk result (IfKept (λ kept. IsKeptIn kept reported.now)) }
    {
        let mut place = self.desk.lock(rt);
        let Some(desk) = &mut *place else {
            return Ok(Standing::Absent);
        };
        if desk.kept.covers(reported) {
            desk.idle = 0;
            return Ok(Standing::Kept(desk.kept.copy()));
        }
        if !desk.opening().is_same(reported.opening()) {
            return Ok(Standing::Absent);
        }
        desk.idle = 0;
        if let Err(fault) = &desk.state {
            return Err(*fault);
        }
        if reported.len() <= desk.asked {
            return Ok(Standing::Ordered);
        }
        desk.asked = reported.len();
        let is_new = !desk.is_ordered && desk.file.is_some();
        desk.is_ordered = true;
        if is_new {
            Ok(Standing::New)
        } else {
            Ok(Standing::Ordered)
        }
    }

    /// The proof that the file is clean, or why the last attempt failed. `None` if no room is open
    /// here.
    pub(crate) fn state(&self, rt: &impl Wait) -> Option<Result<Clean, KeepFault>> {
        match &self.desk.lock(rt).as_ref()?.state {
            Ok(clean) => Some(Ok(clean.copy())),
            Err(fault) => Some(Err(*fault)),
        }
    }

    /// The opening of the room, if it is to be looked whether the room is nearly full: its file
    /// keeps so many entries, and the last attempt did not fail.
    pub(crate) fn to_look_at(&self, rt: &impl Wait) -> Option<Opening<P>> {
        match &*self.desk.lock(rt) {
            Some(desk) if desk.state.is_ok() && desk.kept.prefix().len() >= desk.look_at => {
                Some(desk.opening().copy())
            }
            Some(_) | None => None,
        }
    }

    /// Has the room looked at again after so many further entries.
    pub(crate) fn look_again(&self, rt: &impl Wait, after: u64) {
        if let Some(desk) = &mut *self.desk.lock(rt) {
            desk.look_at = desk.kept.prefix().len().saturating_add(after);
        }
    }

    /// The name of the room. `None` if no room is open here, or an allocation failed.
    pub(crate) fn name(&self, rt: &impl Wait, alloc: Global) -> Option<RoomName> {
        self.desk.lock(rt).as_ref()?.name.copy(alloc).ok()
    }

    /// The room, if its last attempt failed.
    pub(crate) fn failing(&self, rt: &impl Wait, alloc: Global) -> Option<Failing> {
        match &*self.desk.lock(rt) {
            Some(desk) if desk.state.is_err() => Some(Failing {
                number: desk.opening().number(),
                room: text_of(alloc, &desk.name),
            }),
            Some(_) | None => None,
        }
    }

    /// Returns whether the last attempt of the room here failed.
    pub(crate) fn is_failing(&self, rt: &impl Wait) -> bool {
        match &*self.desk.lock(rt) {
            Some(desk) => desk.state.is_err(),
            None => false,
        }
    }

    /// Has another attempt made if the last one failed. Returns whether the caller is to order it.
    pub(crate) fn is_to_retry(&self, rt: &impl Wait) -> bool {
        match &mut *self.desk.lock(rt) {
            Some(desk) if desk.state.is_err() && !desk.is_ordered && desk.file.is_some() => {
                desk.is_ordered = true;
                true
            }
            Some(_) | None => false,
        }
    }

    /// A tick: counts how long nobody has been in the room. Returns whether that is a multiple of
    /// so many ticks.
    pub(crate) fn is_to_close(&self, rt: &impl Wait, rooms: &Rooms<P>, after: u32) -> bool {
        match &mut *self.desk.lock(rt) {
            Some(desk) if desk.is_idle(rt, rooms) => {
                desk.idle = desk.idle.saturating_add(1);
                desk.idle.checked_rem(after) == Some(0)
            }
            Some(desk) => {
                desk.idle = 0;
                false
            }
            None => false,
        }
    }

    /// For how many ticks nobody has been in the room, if it can be closed.
    pub(crate) fn idle(&self, rt: &impl Wait, rooms: &Rooms<P>) -> Option<u32> {
        match &*self.desk.lock(rt) {
            Some(desk) if desk.is_idle(rt, rooms) => Some(desk.idle),
            Some(_) | None => None,
        }
    }

    /// Whether nobody is in the room, which its file does not keep yet. If so, a room waits for
    /// space until the next attempt ends. Where it gives `New`, the caller orders that attempt.
    /// Linear in the entries that the file lacks.
    pub(crate) fn left(&self, rt: &impl Wait, alloc: Global, rooms: &Rooms<P>) -> Left {
        let mut place = self.desk.lock(rt);
        let Some(desk) = &mut *place else {
            return Left::No;
        };
        if desk.state.is_err() || !is_left(rt, alloc, rooms, desk.kept.prefix()) {
            return Left::No;
        }
        desk.is_awaited = true;
        // Whoever waits looks again after an attempt that is being made, and orders another if need
        // be.
        if desk.is_ordered || desk.file.is_none() {
            return Left::Ordered;
        }
        desk.is_ordered = true;
        Left::New
    }

    /// Closes the room if nobody has been in it for so many ticks and its file keeps all of its
    /// record. Gives what is to be closed of it. `None` if it stays open. From then on the receipt
    /// for the record, and the name as one that moves, stand among the doors.
    ///
    /// # Errors
    /// `NoMemory` if an allocation failed. The room stays open.
    pub(crate) fn close(
        &self,
        rt: &impl Wait,
        alloc: Global,
        rooms: &Rooms<P>,
        doors: &mut Doors<P>,
        ticks: u32,
    ) -> Result<Option<Closing<J>>, NoMemory> {
        let mut place = self.desk.lock(rt);
        let Some(desk) = &*place else {
            return Ok(None);
        };
        if desk.idle < ticks || !desk.is_idle(rt, rooms) {
            return Ok(None);
        }
        let name = desk.name.copy(alloc)?;
        doors.add_closed(desk.kept.copy())?;
        doors.begin_move(name.copy(alloc)?)?;
        if rooms.close_idle(rt, &name, desk.kept.prefix())
            && let Some(closed) = place.take()
            && let Some(journal) = closed.into_journal()
        {
            return Ok(Some(Closing { name, journal }));
        }
        doors.end_move(&name);
        Ok(None)
    }

    /// Appends what the room's record has beyond what the file keeps. `None` if another thread
    /// writes, or no room is open here.
    pub(crate) fn keep(
        &self,
        rt: &(impl Wait + Clock),
        alloc: Global,
        rooms: &Rooms<P>,
    ) -> Option<Outcome> {
        let mut file = self.take_file(rt)?;
        let written = write_news(rt, alloc, rooms, &mut file);
        self.put_back(rt, alloc, file, written)
    }

    /// Takes the file. What is ordered from now on needs another attempt.
    fn take_file(&self, rt: &impl Wait) -> Option<RoomFile<P, J>> {
        let mut place = self.desk.lock(rt);
        let desk = place.as_mut()?;
        let file = desk.file.take()?;
        desk.is_ordered = false;
        Some(file)
    }

    /// Puts the file back after an attempt. `None` if no room is open here, which never occurs: a
    /// room whose file a thread has is not closed.
    fn put_back(
        &self,
        rt: &impl Wait,
        alloc: Global,
        file: RoomFile<P, J>,
        written: Result<Option<FileSync>, JournalFault>,
    ) -> Option<Outcome> {
        let (sync, state) = match written {
            Ok(sync) => (sync, file.clean().ok_or(KeepFault::NotKept)),
            Err(fault) => (Some(failed_sync(fault)), Err(keep_fault(fault))),
        };
        let mut place = self.desk.lock(rt);
        let desk = place.as_mut()?;
        let change = match (&desk.state, &state) {
            (Ok(_), Err(fault)) => Some(Change::Fails {
                room: text_of(alloc, &desk.name),
                why: reason(alloc, &file, *fault),
            }),
            (Err(_), Ok(_)) => Some(Change::KeptAgain {
                room: text_of(alloc, &desk.name),
            }),
            (Ok(_), Ok(_)) | (Err(_), Err(_)) => None,
        };
        desk.kept = file.receipt().copy();
        desk.state = state;
        desk.file = Some(file);
        Some(Outcome {
            change,
            sync,
            is_ordered: desk.is_ordered,
            is_awaited: std::mem::replace(&mut desk.is_awaited, false),
        })
    }
}

/// Returns whether nobody is in the room whose record begins with this prefix.
fn is_left<P: RoomHistories>(
    rt: &impl Wait,
    alloc: Global,
    rooms: &Rooms<P>,
    prefix: &Prefix<P>,
) -> bool {
    match rooms.news(rt, alloc, prefix) {
        Ok(news) => rooms.is_idle(rt, news.whole()),
        Err(_) => false,
    }
}

/// The text of a name, for people. Empty if an allocation failed.
pub(crate) fn text_of(alloc: Global, name: &RoomName) -> String {
    String::from_str(alloc, name.text()).unwrap_or(String::new(alloc))
}

/// Why an attempt failed, for people. Empty if an allocation failed.
fn reason<P: RoomHistories, J: Journal>(
    alloc: Global,
    file: &RoomFile<P, J>,
    fault: KeepFault,
) -> String {
    let mut text = String::new(alloc);
    let _ = match file.error() {
        Some(error) if fault == KeepFault::NotKept => write!(text, "{error}"),
        _ => write!(text, "{fault}"),
    };
    text
}

/// What came of a write and a sync that failed so.
fn failed_sync(fault: JournalFault) -> FileSync {
    match fault {
        JournalFault::Full => FileSync::Full,
        JournalFault::Failed | JournalFault::NoMemory => FileSync::Failed,
    }
}

/// The time since then. Zero if the clock fails.
fn time_since(rt: &impl Clock, began: io::Result<Instant>) -> Duration {
    match began {
        Ok(began) => began.elapsed(rt).unwrap_or(Duration::ZERO),
        Err(_) => Duration::ZERO,
    }
}

/// Appends what the room's record has beyond the kept prefix. Gives nothing if there is nothing to
/// write.
fn write_news<P: RoomHistories, J: Journal>(
    rt: &(impl Wait + Clock),
    alloc: Global,
    rooms: &Rooms<P>,
    file: &mut RoomFile<P, J>,
) -> Result<Option<FileSync>, JournalFault>
    ensures { OnErr result (file.new.kept ≡ file.old.kept) }
{
    let news = match rooms.news(rt, alloc, file.receipt().prefix()) {
        Ok(news) => news,
        Err(CallFault::NoMemory) => return Err(JournalFault::NoMemory),
        Err(CallFault::Torn { .. }) => return Err(JournalFault::Failed),
    };
    if news.entries().is_empty() && file.clean().is_some() {
        return Ok(None);
    }
    let began = Instant::now(rt);
    let bytes = file.keep(alloc, &news)?;
    let time = time_since(rt, began);
    Ok(Some(FileSync::Kept { bytes, time }))
}
