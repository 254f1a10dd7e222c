//! Opening and closing rooms on demand, with their files.

ghost use Rattle.std.specs.Prelude.{◌≡◌, IfOk};
ghost use Rattle.room_lock.specs.InOrder.{opening_name};
ghost use Rattle.room_lock.specs.Lookups.{IfNew};

use crate::desk::{Closing, Left, text_of};
use crate::file::RoomFile;
use crate::files::{FileFound, RoomFiles};
use crate::keeping::Keeping;
use crate::queue::Order;
use base_types::{NoMemory, RoomName};
use journal::Journal;
use keeper::{Attempt, Beginning, Change, Reason};
use restore::RestoredFile;
use room_core::RoomState;
use room_lock::{Lookup, Opened, RoomHistories, Rooms};
use std::alloc::Global;
use std::sync::Wait;

/// What opening a room led to.
#[derive(Drop)]
enum Moved {
    /// The room is open, and begins so.
    Opened(Beginning),
    /// The room cannot be opened now.
    Failed(Reason),
    /// As many rooms are open as may be.
    Full,
}

/// When there is space for one more room on demand.
#[derive(Clone, Copy, Debug, PartialEq, Eq)]
enum Space {
    /// There is, or a room can be closed.
    Now,
    /// Once a room is kept that nobody is in, which an attempt does.
    Soon,
    /// Somebody is in each open room, or its file fails.
    None,
}

/// A room on demand that nobody is in.
#[derive(Clone, Copy, Debug, Drop)]
pub(crate) struct Idle {
    /// Its place.
    pub(crate) place: usize,
    /// For how many ticks nobody has been in it, at least.
    pub(crate) ticks: u32,
}

/// A room that is to be opened with its file.
#[derive(Drop)]
struct NewRoom<J: Journal> {
    name: RoomName,
    state: RoomState,
    file: RestoredFile<J>,
    /// The newest room of its chain, if it is an earlier one.
    later: Option<RoomName>,
}

impl<P: RoomHistories, J: Journal + Drop, F: RoomFiles<J> + Drop> Keeping<P, J, F> {
    /// Opens the room of this name with its file, as it was ordered. Where as many rooms are open
    /// as may be, closes one that nobody is in, and has this one opened next.
    pub(crate) fn open_room(
        &self,
        rt: &impl Wait,
        alloc: Global,
        rooms: &Rooms<P>,
        name: RoomName,
    ) -> Attempt {
        let moved = if rooms.is_full(rt) {
            Moved::Full
        } else {
            self.read_room(rt, alloc, rooms, &name)
        };
        match moved {
            Moved::Opened(beginning) => Attempt {
                news: [Some(beginning.place), Some(self.waiting_place(&name))],
                change: Some(Change::Opened(beginning)),
                sync: None,
            },
            Moved::Failed(reason) => self.fail(rt, name, reason),
            Moved::Full => self.make_space(rt, alloc, rooms, name),
        }
    }

    /// Notes that the room of this name cannot be opened now.
    fn fail(&self, rt: &impl Wait, name: RoomName, reason: Reason) -> Attempt {
        let awaited = self.waiting_place(&name);
        self.doors.lock(rt).fail(name, reason);
        Attempt {
            news: [None, Some(awaited)],
            change: None,
            sync: None,
        }
    }

    /// Closes the room that nobody has been in for longest, and has the room of this name opened
    /// next. Where no room can be closed yet, waits for one.
    fn make_space(
        &self,
        rt: &impl Wait,
        alloc: Global,
        rooms: &Rooms<P>,
        name: RoomName,
    ) -> Attempt {
        let Some(idle) = self.longest_idle(rt, rooms) else {
            return self.wait_for_space(rt, alloc, rooms, name);
        };
        let mut attempt = self.close_room(rt, alloc, rooms, idle);
        // Only now, since another thread may take the order and would close one more room.
        if !self.open_next(rt, alloc, &name) {
            attempt.news[0] = Some(self.waiting_place(&name));
            self.doors.lock(rt).fail(name, Reason::NoMemory);
        }
        attempt
    }

    /// Has the room of this name opened once there is space for it. Notes that it cannot be opened
    /// now if there is none soon.
    fn wait_for_space(
        &self,
        rt: &impl Wait,
        alloc: Global,
        rooms: &Rooms<P>,
        name: RoomName,
    ) -> Attempt {
        let Ok(copied) = name.copy(alloc) else {
            return self.fail(rt, name, Reason::NoMemory);
        };
        if self.doors.lock(rt).park(copied).is_err() {
            return self.fail(rt, name, Reason::NoMemory);
        }
        // Who makes space from now on finds the name, so only now it is known what will come.
        match self.space(rt, alloc, rooms) {
            Space::Now => self.order_parked(rt, alloc),
            Space::Soon => {}
            Space::None => {
                let is_parked = self.doors.lock(rt).unpark(&name);
                if is_parked {
                    return self.fail(rt, name, Reason::Full);
                }
            }
        }
        Attempt {
            news: [None, None],
            change: None,
            sync: None,
        }
    }

    /// When there is space for one more room. Has a room kept that nobody is in where that makes
    /// space. Linear in the number of rooms that may be open.
    fn space(&self, rt: &impl Wait, alloc: Global, rooms: &Rooms<P>) -> Space {
        if !rooms.is_full(rt) || self.longest_idle(rt, rooms).is_some() {
            return Space::Now;
        }
        for (place, desk) in self.places.iter().enumerate().skip(self.first) {
            match desk.left(rt, alloc, rooms) {
                Left::New => {
                    self.orders.add_next(rt, Order::Keep(place));
                    return Space::Soon;
                }
                Left::Ordered => return Space::Soon,
                Left::No => {}
            }
        }
        Space::None
    }

    /// Orders that each room is opened that waits for space. The thread that calls this takes the
    /// first order next.
    pub(crate) fn order_parked(&self, rt: &impl Wait, alloc: Global) {
        let parked = self.doors.lock(rt).take_parked(alloc);
        for name in parked.iter() {
            if !self.open_next(rt, alloc, name) {
                self.doors.lock(rt).end_move(name);
            }
        }
    }

    /// Orders that the room of this name is opened. The thread that calls this takes the order
    /// next. Returns false if an allocation failed.
    fn open_next(&self, rt: &impl Wait, alloc: Global, name: &RoomName) -> bool {
        match name.copy(alloc) {
            Ok(name) => self.orders.add_next(rt, Order::Open(name)),
            Err(NoMemory) => false,
        }
    }

    /// The room on demand that nobody has been in for longest, if one can be closed. Linear in the
    /// number of rooms that may be open.
    fn longest_idle(&self, rt: &impl Wait, rooms: &Rooms<P>) -> Option<Idle> {
        let mut longest: Option<Idle> = None;
        for (place, desk) in self.places.iter().enumerate().skip(self.first) {
            if let Some(ticks) = desk.idle(rt, rooms)
                && longest.is_none_or(|found| ticks > found.ticks)
            {
                longest = Some(Idle { place, ticks });
            }
        }
        longest
    }

    /// Reads the file of the room of this name, and opens the room.
    fn read_room(&self, rt: &impl Wait, alloc: Global, rooms: &Rooms<P>, name: &RoomName) -> Moved {
        let Ok(copied) = name.copy(alloc) else {
            return Moved::Failed(Reason::NoMemory);
        };
        let (state, file, later) = match self.files.open(alloc, name) {
            Ok(FileFound::Here { state, file, later }) => (state, file, later),
            Ok(FileFound::Elsewhere) => return Moved::Failed(Reason::Elsewhere),
            Ok(FileFound::Absent | FileFound::Unusable) => return Moved::Failed(Reason::File),
            Err(NoMemory) => return Moved::Failed(Reason::NoMemory),
        };
        if state.limits() != rooms.limits() {
            self.files.close(alloc, name, file.into_journal());
            return Moved::Failed(Reason::File);
        }
        let new = NewRoom {
            name: copied,
            state,
            file,
            later,
        };
        self.enter(rt, alloc, rooms, new)
    }

    /// Opens a room with its file. Whoever looks for the room finds it with its file, since all of
    /// this is done under the lock of the doors, and finds where its chain goes on.
    fn enter(&self, rt: &impl Wait, alloc: Global, rooms: &Rooms<P>, new: NewRoom<J>) -> Moved
        requires limits { new.state.room.limits ≡ P.limits }
        requires file { new.file ≡ record { name = new.name; entries = new.state.room.entries } }
    {
        let NewRoom {
            name,
            state,
            file,
            later,
        } = new;
        let added = self.chains.lock(rt).add(alloc, &name, later.as_ref());
        if added.is_err() {
            self.files.close(alloc, &name, file.into_journal());
            return Moved::Failed(Reason::NoMemory);
        }
        let beginning = beginning_of(alloc, &name, &state);
        let mut doors = self.doors.lock(rt);
        let unopened = match open_as(rt, alloc, rooms, &name, state) {
            Ok(Opened::New(begun)) => {
                let opened = RoomFile::open(&begun, file);
                doors.end_move(&name);
                let place = begun.place();
                if let Some(here) = self.places.get(place) {
                    here.put(rt, name, opened);
                }
                return Moved::Opened(Beginning { place, ..beginning });
            }
            Ok(Opened::Full) => Moved::Full,
            // Never: a name that moves is opened by one thread alone.
            Ok(Opened::Known(_)) => Moved::Failed(Reason::Elsewhere),
            Err(NoMemory) => Moved::Failed(Reason::NoMemory),
        };
        drop(doors);
        self.chains.lock(rt).remove(alloc, &name);
        self.files.close(alloc, &name, file.into_journal());
        unopened
    }

    /// Closes the room at this place with its file, if nobody has been in it for so long and its
    /// file keeps all that it has.
    pub(crate) fn close_room(
        &self,
        rt: &impl Wait,
        alloc: Global,
        rooms: &Rooms<P>,
        idle: Idle,
    ) -> Attempt {
        let Idle { place, ticks } = idle;
        let nothing = Attempt {
            news: [None, None],
            change: None,
            sync: None,
        };
        let Some(here) = self.places.get(place) else {
            return nothing;
        };
        let taken = here.close(rt, alloc, rooms, &mut self.doors.lock(rt), ticks);
        let Ok(Some(Closing { name, journal })) = taken else {
            return nothing;
        };
        self.chains.lock(rt).remove(alloc, &name);
        self.files.close(alloc, &name, journal);
        self.doors.lock(rt).end_move(&name);
        Attempt {
            news: [None, Some(self.waiting_place(&name))],
            change: Some(Change::Closed { place }),
            sync: None,
        }
    }
}

/// How a room of this name begins that has this record, at a place that is not known yet.
fn beginning_of(alloc: Global, name: &RoomName, state: &RoomState) -> Beginning {
    Beginning {
        room: text_of(alloc, name),
        place: 0,
        sites: state.sites(),
        entries: state.entries().len(),
        objects: state.count_objects(),
        has_ended: state.has_ended(),
    }
}

/// Opens the room of this name with a record.
fn open_as<P: RoomHistories>(
    rt: &impl Wait,
    alloc: Global,
    rooms: &Rooms<P>,
    name: &RoomName,
    state: RoomState,
) -> Result<Opened<P>, NoMemory>
    requires limits { state.room.limits ≡ P.limits }
    ensures new { IfOk result (IfNew (λ begun. (opening_name begun.opening ≡ name.now)
        × (begun.entries ≡ state.room.entries))) }
{
    match rooms.opening_of(rt, name) {
        Lookup::Closed => rooms.open(rt, alloc, name.copy(alloc)?, state),
        Lookup::Open(opening) => Ok(Opened::Known(opening)),
        Lookup::NoRoom => Ok(Opened::Full),
    }
}
