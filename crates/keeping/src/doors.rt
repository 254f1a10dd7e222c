//! The rooms on demand that are neither open nor closed, and what is kept of those that were
//! closed.

ghost use Rattle.std.specs.Prelude.{IfSome};
ghost use Rattle.keeping.specs.Kept.{IsKeptIn};

use crate::file::Kept;
use crate::recent::Recent;
use base_types::{NoMemory, RoomName};
use indexmap::IndexSet;
use keeper::Reason;
use room_lock::{Prefix, RoomHistories};
use std::alloc::Global;

/// The most names that wait, and the most that are remembered as not opened.
const MAX_NAMES: usize = 65_536;

/// Why a room cannot be entered at once.
#[derive(Clone, Copy, Debug, Drop, PartialEq, Eq)]
pub(crate) enum Obstacle {
    /// A thread opens or closes it.
    Moving,
    /// It could not be opened a short time ago.
    Failed(Reason),
}

/// The names of rooms on demand that are being opened or closed, or could not be opened. And
/// receipts for what is kept of rooms that were closed: a reply of such a room may still have to be
/// sent.
#[derive(Drop)]
pub(crate) struct Doors<P: RoomHistories> {
    moving: IndexSet<RoomName>,
    /// Those for which there is no space, until an attempt to keep a room ends that may give it.
    parked: IndexSet<RoomName>,
    failed: Recent<RoomName, Reason>,
    /// By the numbers of their openings.
    closed: Recent<u64, Kept<P>>,
}

impl<P: RoomHistories> Doors<P> {
    /// No names.
    pub(crate) fn new(alloc: Global) -> Doors<P> {
        Doors {
            moving: IndexSet::new(alloc),
            parked: IndexSet::new(alloc),
            failed: Recent::none(alloc),
            closed: Recent::none(alloc),
        }
    }

    /// Why the room of this name cannot be entered at once, if it cannot.
    pub(crate) fn obstacle(&self, name: &RoomName) -> Option<Obstacle> {
        if self.moving.contains(name) {
            return Some(Obstacle::Moving);
        }
        match self.failed.get(name)? {
            // The other process may have ended meanwhile, and a look at its lock costs little.
            Reason::Elsewhere if self.failed.get_new(name).is_none() => None,
            reason => Some(Obstacle::Failed(*reason)),
        }
    }

    /// Returns whether no more names can wait.
    pub(crate) fn is_full(&self) -> bool {
        self.moving.len() >= MAX_NAMES
    }

    /// The room of this name is being opened or closed from now on.
    ///
    /// # Errors
    /// `NoMemory` if an allocation failed.
    pub(crate) fn begin_move(&mut self, name: RoomName) -> Result<(), NoMemory> {
        match self.moving.insert(name) {
            Ok(_) => Ok(()),
            Err(_) => Err(NoMemory),
        }
    }

    /// The room of this name is open or closed now.
    pub(crate) fn end_move(&mut self, name: &RoomName) {
        self.moving.swap_remove(name);
    }

    /// The room of this name waits for space.
    ///
    /// # Errors
    /// `NoMemory` if an allocation failed.
    pub(crate) fn park(&mut self, name: RoomName) -> Result<(), NoMemory> {
        match self.parked.insert(name) {
            Ok(_) => Ok(()),
            Err(_) => Err(NoMemory),
        }
    }

    /// The room of this name no longer waits for space. Returns whether it did.
    pub(crate) fn unpark(&mut self, name: &RoomName) -> bool {
        self.parked.swap_remove(name)
    }

    /// The rooms that wait for space. They no longer do.
    pub(crate) fn take_parked(&mut self, alloc: Global) -> IndexSet<RoomName> {
        std::mem::replace(&mut self.parked, IndexSet::new(alloc))
    }

    /// The room of this name could not be opened, which is remembered for one to two seconds; that
    /// somebody else has its file, for one at most.
    pub(crate) fn fail(&mut self, name: RoomName, reason: Reason) {
        self.end_move(&name);
        if self.failed.count_new() < MAX_NAMES {
            let _ = self.failed.add(name, reason);
        }
    }

    /// This is kept of a room that is closed.
    ///
    /// # Errors
    /// `NoMemory` if an allocation failed.
    pub(crate) fn add_closed(&mut self, kept: Kept<P>) -> Result<(), NoMemory> {
        self.closed.add(kept.prefix().opening().number(), kept)
    }

    /// The receipt for this prefix of the record of a room that was closed a short time ago, if it
    /// is kept.
    pub(crate) fn receipt(&self, reported: &Prefix<P>) -> Option<Kept<P>>
        ensures { IfSome result (λ kept. IsKeptIn kept reported.now) }
    {
        let kept = self.closed.get(&reported.opening().number())?;
        if kept.covers(reported) {
            Some(kept.copy())
        } else {
            None
        }
    }

    /// A second has passed.
    pub(crate) fn tick(&mut self) {
        self.failed.tick();
        self.closed.tick();
    }
}
