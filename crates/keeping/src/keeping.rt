//! The files of all rooms of a server.

ghost use Rattle.std.specs.Prelude.{◌≡◌, IfOk, IfSome};
ghost use Rattle.keeping.specs.Kept.{IsKeptIn};
ghost use Rattle.keeping.specs.steps.Standings.{IfKept};

use crate::chains::Chains;
use crate::desk::{Place, Standing};
use crate::doors::{Doors, Obstacle};
use crate::file::{Clean, Kept, RoomFile};
use crate::files::RoomFiles;
use crate::moving::Idle;
use crate::orders::Orders;
use crate::queue::Order;
use base_types::{NoMemory, RoomName};
use journal::Journal;
use keeper::{Access, Attempt, Change, Failing, FileSync, KeepFault, Keeper, Reason};
use room_lock::{Lookup, Opening, Prefix, RoomHistories, Rooms};
use std::alloc::Global;
use std::sync::atomic::{AtomicUsize, Ordering};
use std::sync::{Mutex, Wait};
use std::time::Clock;

/// The most threads that write and sync.
const MAX_THREADS: usize = 16;

/// The number of places at which who asked for a room may have to wait.
const WAITING_PLACES: usize = 64;

/// The files of all rooms, by the places of the rooms. A thread writes and syncs all that a room
/// has by then for all that wait for it. No two threads write for one room. Rooms on demand are
/// opened and closed by these threads too, with their files. Locks are taken in this order: the
/// doors, a place, then what `Rooms` locks, and that of the orders last. The lock of the chains is
/// taken alone.
#[derive(Drop)]
pub struct Keeping<P: RoomHistories, J: Journal, F> {
    pub(crate) places: Vec<Place<P, J>>,
    /// The number of rooms that are open from the start.
    pub(crate) first: usize,
    pub(crate) orders: Orders,
    /// The number of rooms of which the last attempt failed.
    failing: AtomicUsize,
    pub(crate) doors: Mutex<Doors<P>>,
    pub(crate) chains: Mutex<Chains>,
    /// The files of rooms on demand.
    pub(crate) files: F,
    /// After how many ticks a room is closed that nobody is in. The first may come at once.
    close_after: u32,
}

/// The files of rooms on demand, and when they are closed.
#[derive(Drop)]
pub struct OnDemand<F> {
    /// The files.
    pub files: F,
    /// After how many seconds a room is closed that nobody is in. One more may pass.
    pub close_after: u32,
}

impl<P: RoomHistories, J: Journal + Drop, F: RoomFiles<J> + Drop> Keeping<P, J, F> {
    /// Keeps the rooms that are open from the start in these files, which are in the order of the
    /// rooms, and rooms on demand in files that are opened with them. Who asks for an earlier room
    /// of a chain than the newest of those that are open is sent to that one.
    ///
    /// # Errors
    /// `NoMemory` if an allocation failed.
    pub fn new(
        rt: &impl Wait,
        alloc: Global,
        rooms: &Rooms<P>,
        files: Vec<RoomFile<P, J>>,
        on_demand: OnDemand<F>,
    ) -> Result<Keeping<P, J, F>, NoMemory> {
        let OnDemand {
            files: others,
            close_after,
        } = on_demand;
        let first = files.len();
        let places = places_of(rt, alloc, rooms, files)?;
        let orders = Orders::new(alloc, places.len(), places.len().min(MAX_THREADS))?;
        let chains = chains_of(alloc, rooms)?;
        Ok(Keeping {
            places,
            first,
            orders,
            failing: AtomicUsize::new(0),
            doors: Mutex::new(Doors::new(alloc)),
            chains: Mutex::new(chains),
            files: others,
            close_after: close_after.saturating_add(1),
        })
    }

    /// Returns whether no room's last attempt failed.
    pub fn all_kept(&self, rt: &impl Wait) -> bool {
        !self.places.iter().any(|place| place.is_failing(rt))
    }

    /// Counts what an attempt changed.
    fn count(&self, change: &Option<Change>) {
        match change {
            Some(Change::Fails { .. }) => {
                self.failing.fetch_add(1, Ordering::SeqCst);
            }
            Some(Change::KeptAgain { .. }) => {
                self.failing.fetch_sub(1, Ordering::SeqCst);
            }
            Some(Change::Opened(_) | Change::Closed { .. }) | None => {}
        }
    }

    /// Keeps what the record of the room at this place has. If the room is nearly full then, ends
    /// its record and keeps the end. From then on, whoever joins is sent on to the next room.
    fn keep_at(
        &self,
        rt: &(impl Wait + Clock),
        alloc: Global,
        rooms: &Rooms<P>,
        place: usize,
    ) -> Attempt {
        let attempt = self.attempt_at(rt, alloc, rooms, place);
        let Some(next) = self.end_at(rt, alloc, rooms, place) else {
            return attempt;
        };
        let last = self.attempt_at(rt, alloc, rooms, place);
        if let Some(FileSync::Kept { .. }) = last.sync {
            // Where an allocation fails, who joins is told that the record has ended.
            let _ = self.chains.lock(rt).go_on(alloc, &next);
        }
        Attempt {
            change: last.change.or(attempt.change),
            ..last
        }
    }

    /// Keeps what the record of the room at this place has. Rooms that wait for the end of this
    /// attempt are opened next.
    fn attempt_at(
        &self,
        rt: &(impl Wait + Clock),
        alloc: Global,
        rooms: &Rooms<P>,
        place: usize,
    ) -> Attempt {
        let mut attempt = Attempt {
            news: [Some(place), None],
            change: None,
            sync: None,
        };
        if let Some(here) = self.places.get(place)
            && let Some(outcome) = here.keep(rt, alloc, rooms)
        {
            if outcome.is_ordered {
                self.orders.add_next(rt, Order::Keep(place));
            }
            if outcome.is_awaited {
                self.order_parked(rt, alloc);
            }
            attempt.change = outcome.change;
            attempt.sync = outcome.sync;
        }
        self.count(&attempt.change);
        attempt
    }

    /// What is known of this prefix of a room's record, and the receipt if the room was closed a
    /// short time ago. A room is opened and closed under the lock of the doors, so it is looked for
    /// once more under that.
    fn receipt_elsewhere(
        &self,
        rt: &impl Wait,
        reported: &Prefix<P>,
    ) -> Result<Option<Kept<P>>, KeepFault>
        ensures { IfOk result (λ found. IfSome found (λ kept. IsKeptIn kept reported.now)) }
    {
        let doors = self.doors.lock(rt);
        if let Some(kept) = doors.receipt(reported) {
            return Ok(Some(kept));
        }
        match self.places.get(reported.place()) {
            Some(place) => self.take_standing(rt, reported, place.standing(rt, reported)?),
            None => Err(KeepFault::NotKept),
        }
    }

    /// The receipt, if the prefix is known to be kept. Orders an attempt if one is needed.
    fn take_standing(
        &self,
        rt: &impl Wait,
        reported: &Prefix<P>,
        standing: Standing<P>,
    ) -> Result<Option<Kept<P>>, KeepFault>
        requires { IfKept (λ kept. IsKeptIn kept reported.now) standing }
        ensures { IfOk result (λ found. IfSome found (λ kept. IsKeptIn kept reported.now)) }
    {
        match standing {
            Standing::Kept(kept) => Ok(Some(kept)),
            Standing::Ordered => Ok(None),
            Standing::New => {
                self.orders.add(rt, Order::Keep(reported.place()));
                Ok(None)
            }
            Standing::Absent => Err(KeepFault::NotKept),
        }
    }

    /// The proof that the file of the room of this opening is clean, if it is.
    fn clean(&self, rt: &impl Wait, opening: &Opening<P>) -> Option<Clean>
        ensures { IfSome result (λ clean. clean ≡ opening.now.number) }
    {
        let clean = self.places.get(opening.place())?.state(rt)?.ok()?;
        if clean.number() == opening.number() {
            Some(clean)
        } else {
            None
        }
    }
}

/// A place for each room that may be open. The rooms that are open from the start are there.
fn places_of<P: RoomHistories, J: Journal + Drop>(
    rt: &impl Wait,
    alloc: Global,
    rooms: &Rooms<P>,
    files: Vec<RoomFile<P, J>>,
) -> Result<Vec<Place<P, J>>, NoMemory> {
    let count = rooms.count_places();
    let mut places = Vec::with_capacity(alloc, count)?;
    for _ in 0..count {
        places.push(Place::new())?;
    }
    for (index, file) in files.into_iter().enumerate() {
        if let (Some(place), Some(name)) = (places.get(index), rooms.name_at(index)) {
            place.put(rt, name.copy(alloc)?, file);
        }
    }
    Ok(places)
}

/// The newest room of each chain, of the rooms that are open from the start.
fn chains_of<P: RoomHistories>(alloc: Global, rooms: &Rooms<P>) -> Result<Chains, NoMemory> {
    let mut chains = Chains::new(alloc);
    for place in 0..rooms.count_places() {
        if let Some(name) = rooms.name_at(place) {
            chains.add(alloc, name, None)?;
        }
    }
    Ok(chains)
}

impl<P: RoomHistories, J: Journal + Drop, F: RoomFiles<J> + Drop> Keeper<P> for Keeping<P, J, F> {
    ghost use Rattle.keeping.specs.Kept.{IsKeptIn};
    ghost use Rattle.std.specs.Prelude.{◌≡◌};

    type Receipt = Kept<P>;

    type Permit = Clean;

    ghost shows = { λ kept reported. IsKeptIn kept reported };

    ghost permits = { λ clean number. clean ≡ number };

    ghost fails = { λ _ reported. Unit {0} };

    ghost denies = { λ number. Unit {0} };

    fn receipt(&self, rt: &impl Wait, reported: &Prefix<P>) -> Result<Option<Kept<P>>, KeepFault> {
        let Some(place) = self.places.get(reported.place()) else {
            return Err(KeepFault::NotKept);
        };
        match place.standing(rt, reported)? {
            Standing::Absent => self.receipt_elsewhere(rt, reported),
            standing => self.take_standing(rt, reported, standing),
        }
    }

    /// A thread opens the room, unless it was found a short time ago that it cannot be opened.
    fn open(
        &self,
        rt: &impl Wait,
        alloc: Global,
        rooms: &Rooms<P>,
        name: &RoomName,
    ) -> Result<Access<P>, NoMemory> {
        let mut doors = self.doors.lock(rt);
        match doors.obstacle(name) {
            Some(Obstacle::Moving) => return Ok(Access::Later(self.waiting_place(name))),
            Some(Obstacle::Failed(reason)) => return Ok(Access::NotServed(reason)),
            None => {}
        }
        if let Lookup::Open(opening) = rooms.opening_of(rt, name) {
            return Ok(Access::Known(opening));
        }
        if doors.is_full() {
            return Ok(Access::NotServed(Reason::Full));
        }
        let ordered = name.copy(alloc)?;
        doors.begin_move(name.copy(alloc)?)?;
        if !self.orders.add(rt, Order::Open(ordered)) {
            doors.end_move(name);
            return Err(NoMemory);
        }
        Ok(Access::Later(self.waiting_place(name)))
    }

    fn newest(
        &self,
        rt: &impl Wait,
        alloc: Global,
        name: &RoomName,
    ) -> Result<Option<RoomName>, NoMemory> {
        self.chains.lock(rt).later(alloc, name)
    }

    fn permit(&self, rt: &impl Wait, opening: &Opening<P>) -> Option<Clean> {
        if let Some(clean) = self.clean(rt, opening) {
            return Some(clean);
        }
        let _doors = self.doors.lock(rt);
        self.clean(rt, opening)
    }

    fn failing(&self, rt: &impl Wait, alloc: Global) -> Option<Failing> {
        if self.failing.load(Ordering::SeqCst) == 0 {
            return None;
        }
        self.places
            .iter()
            .find_map(|place| place.failing(rt, alloc))
    }

    fn count_threads(&self) -> usize {
        self.places.len().min(MAX_THREADS)
    }

    fn count_waiting_places(&self) -> usize {
        if self.places.len() > self.first {
            WAITING_PLACES
        } else {
            0
        }
    }

    fn keep_next(
        &self,
        rt: &(impl Wait + Clock),
        alloc: Global,
        rooms: &Rooms<P>,
    ) -> Option<Attempt> {
        match self.orders.next(rt)? {
            Order::Keep(place) => Some(self.keep_at(rt, alloc, rooms, place)),
            Order::Open(name) => {
                let attempt = self.open_room(rt, alloc, rooms, name);
                self.orders.end_opening(rt);
                Some(attempt)
            }
            Order::Close(place) => {
                let ticks = self.close_after;
                let attempt = self.close_room(rt, alloc, rooms, Idle { place, ticks });
                self.orders.end_closing(rt);
                Some(attempt)
            }
        }
    }

    fn tick(&self, rt: &impl Wait, rooms: &Rooms<P>) {
        self.retry(rt);
        self.doors.lock(rt).tick();
        for (place, desk) in self.places.iter().enumerate().skip(self.first) {
            if desk.is_to_close(rt, rooms, self.close_after) {
                self.orders.add(rt, Order::Close(place));
            }
        }
    }

    /// Records of which the last attempt failed have one more.
    fn end(&self, rt: &impl Wait) {
        self.retry(rt);
        self.orders.end(rt);
    }

    fn close(&self, rt: &impl Wait, alloc: Global, rooms: &Rooms<P>) {
        for place in self.first..self.places.len() {
            self.close_room(rt, alloc, rooms, Idle { place, ticks: 0 });
        }
    }
}

impl<P: RoomHistories, J: Journal + Drop, F: RoomFiles<J> + Drop> Keeping<P, J, F> {
    /// Has each record of which the last attempt failed kept next. Linear in the number of rooms if
    /// there is one, otherwise constant time.
    fn retry(&self, rt: &impl Wait) {
        if self.failing.load(Ordering::SeqCst) == 0 {
            return;
        }
        for (place, desk) in self.places.iter().enumerate() {
            if desk.is_to_retry(rt) {
                self.orders.add(rt, Order::Keep(place));
            }
        }
    }

    /// The place at which there is news of the room of this name: one of a few behind those of the
    /// rooms, by a hash of the name.
    pub(crate) fn waiting_place(&self, name: &RoomName) -> usize {
        let hash = fnv_1a(name.text().as_bytes()) as usize;
        self.places.len().saturating_add(hash % WAITING_PLACES)
    }
}

/// The 32-bit hash FNV-1a.
fn fnv_1a(bytes: &[u8]) -> u32 {
    let mut hash: u32 = 0x811c_9dc5;
    for byte in bytes {
        hash = (hash ^ u32::from(*byte)).wrapping_mul(0x0100_0193);
    }
    hash
}
