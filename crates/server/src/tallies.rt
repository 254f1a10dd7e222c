//! Counts of what all rooms of a server have.

ghost use Rattle.std.specs.Prelude.{◌≡◌, ◌+◌, ◌<◌, ◌^◌, IfOk, length, slice_get, vec_len};

use crate::tally::{EntrySums, Tally};
use base_types::{NoMemory, RoomName};
use crossbeam_utils::CachePadded;
use keeper::Beginning;
use log::{Log, info};
use room_core::RoomState;
use std::alloc::Global;
use std::sync::atomic::{AtomicU64, Ordering};
use std::sync::{Mutex, Wait};
use wire::EntryKind;

/// What the tallies do not tell of the entries that rooms have added.
#[derive(Clone, Copy, Debug)]
struct Past {
    /// What all rooms began with.
    begun: EntrySums,
    /// What rooms had that others have replaced at their places.
    gone: EntrySums,
}

/// The tallies of the rooms by their places: first the rooms that are open from the start, then
/// those that may be opened on demand. The tally of a room that was closed stays until another is
/// opened at its place.
#[derive(Drop)]
pub(crate) struct Tallies {
    /// The names of the rooms that are open from the start.
    names: Vec<RoomName>,
    /// Threads in rooms of their own write to no common cache line.
    rooms: Vec<CachePadded<Tally>>,
    past: Mutex<Past>,
    /// The number of replies that report on no room.
    outside: AtomicU64,
    /// The number of rooms that were opened on demand.
    opened: AtomicU64,
    /// The number of rooms that were closed.
    closed: AtomicU64,
}

/// Copies of these names.
fn copies(alloc: Global, names: &[RoomName]) -> Result<Vec<RoomName>, NoMemory>
    ensures { IfOk result (λ copied. copied.items ≡ names.now) }
{
    let mut copied = Vec::with_capacity(alloc, names.len())?;
    for name in names {
        copied.push(name.copy(alloc)?)?;
    }
    Ok(copied)
}

impl Tallies {
    /// The tallies of rooms that begin empty: those of these names, and so many on demand.
    ///
    /// # Errors
    /// `NoMemory` if an allocation failed.
    pub(crate) fn empty(
        alloc: Global,
        names: &[RoomName],
        on_demand: u32,
    ) -> Result<Tallies, NoMemory>
        ensures names { IfOk result (λ tallies. tallies.names.items ≡ names.now) }
        ensures rooms { length names.now + on_demand < 2 ^ 64 → IfOk result (λ tallies.
            vec_len tallies.rooms ≡ length names.now + on_demand) }
    {
        let count = names.len().saturating_add(on_demand as usize);
        let rooms = (0..count)
            .map(|_| CachePadded::new(Tally::empty()))
            .collect(alloc)?;
        Ok(Tallies::new(copies(alloc, names)?, rooms))
    }

    /// The tallies of rooms of these names that begin with these records, in the same order, and of
    /// so many on demand.
    ///
    /// # Errors
    /// `NoMemory` if an allocation failed.
    pub(crate) fn of_rooms(
        alloc: Global,
        names: &[RoomName],
        records: &[RoomState],
        on_demand: u32,
    ) -> Result<Tallies, NoMemory>
        ensures names { IfOk result (λ tallies. tallies.names.items ≡ names.now) }
        ensures rooms { IfOk result (λ tallies.
            vec_len tallies.rooms ≡ length records.now + on_demand) }
    {
        let mut rooms: Vec<CachePadded<Tally>> = records
            .iter()
            .map(|record| CachePadded::new(Tally::of_room(record)))
            .collect(alloc)?;
        let mut others: Vec<CachePadded<Tally>> = (0..on_demand)
            .map(|_| CachePadded::new(Tally::empty()))
            .collect(alloc)?;
        rooms.append(&mut others)?;
        Ok(Tallies::new(copies(alloc, names)?, rooms))
    }

    fn new(names: Vec<RoomName>, rooms: Vec<CachePadded<Tally>>) -> Tallies
        ensures names { result.names ≡ names }
        ensures rooms { result.rooms ≡ rooms }
    {
        let past = Past {
            begun: EntrySums::of(&rooms),
            gone: EntrySums::NONE,
        };
        Tallies {
            names,
            rooms,
            past: Mutex::new(past),
            outside: AtomicU64::new(0),
            opened: AtomicU64::new(0),
            closed: AtomicU64::new(0),
        }
    }

    /// The room of this name at this place has added an entry of this kind.
    pub(crate) fn add<R: Log>(&self, rt: &R, name: &str, place: usize, kind: EntryKind) {
        if let Some(room) = self.rooms.get(place) {
            room.add(rt, name, kind);
        }
    }

    /// There is a reply, on the room at this place if it reports on one.
    pub(crate) fn add_reply(&self, place: Option<usize>) {
        match place.and_then(|place| self.rooms.get(place)) {
            Some(room) => room.add_reply(),
            None => {
                self.outside.fetch_add(1, Ordering::SeqCst);
            }
        }
    }

    /// The number of replies. Linear in the number of rooms that may be open.
    pub(crate) fn count_replies(&self) -> u64 {
        let mut replies = self.outside.load(Ordering::SeqCst);
        for room in &self.rooms {
            replies = replies.saturating_add(room.replies());
        }
        replies
    }

    /// A room was opened on demand with a record. Warns if it begins nearly full, and nothing goes
    /// on with it.
    pub(crate) fn begin_room<R: Wait + Log>(&self, rt: &R, beginning: &Beginning) {
        self.add_opening();
        if let Some(room) = self.rooms.get(beginning.place) {
            let mut past = self.past.lock(rt);
            past.gone = past.gone.and(room.begin_anew(beginning));
            past.begun = past.begun.and(EntrySums::of_beginning(beginning));
            drop(past);
            if !beginning.has_ended {
                room.begin(rt, &beginning.room);
            }
        }
    }

    /// A room was closed.
    pub(crate) fn add_closing(&self) {
        self.closed.fetch_add(1, Ordering::SeqCst);
    }

    /// The number of rooms that were closed.
    pub(crate) fn count_closed(&self) -> u64 {
        self.closed.load(Ordering::SeqCst)
    }

    /// A room was opened on demand.
    pub(crate) fn add_opening(&self) {
        self.opened.fetch_add(1, Ordering::SeqCst);
    }

    /// The number of rooms that were opened on demand.
    pub(crate) fn count_opened(&self) -> u64 {
        self.opened.load(Ordering::SeqCst)
    }

    /// The number of open rooms.
    pub(crate) fn count_open(&self) -> u64 {
        let on_demand = self.count_opened().saturating_sub(self.count_closed());
        on_demand.saturating_add(self.names.len() as u64)
    }

    /// The most rooms that are open at a time.
    pub(crate) fn most_open(&self) -> u64
        ensures { result ≡ vec_len self.now.rooms }
    {
        self.rooms.len() as u64
    }

    /// What the rooms have added. Linear in the number of rooms that may be open.
    pub(crate) fn added(&self, rt: &impl Wait) -> EntrySums {
        let past = self.past.lock(rt);
        EntrySums::of(&self.rooms).and(past.gone).since(past.begun)
    }

    /// Warns of rooms that begin nearly full.
    pub(crate) fn begin<R: Log>(&self, rt: &R) {
        for (name, room) in self.names.iter().zip(&self.rooms) {
            room.begin(rt, name.text());
        }
    }

    /// Reports how many rooms are open if some are opened on demand, and on each room that is open
    /// from the start.
    pub(crate) fn report<R: Log>(&self, rt: &R) {
        if self.rooms.len() > self.names.len() {
            let (open, most) = (self.count_open(), self.most_open());
            info!(rt; "report: rooms open {open}/{most}");
        }
        for (name, room) in self.names.iter().zip(&self.rooms) {
            room.report(rt, name.text());
        }
    }
}
