//! Rooms behind their locks.

ghost use Rattle.std.specs.Prelude.{◌≡◌, ◌↔◌, true};
ghost use Rattle.std.specs.Sync.Mutex.{mutex_guard_value};
ghost use Rattle.room_lock.specs.steps.Stages.{IsIdleAs, IsOpenAs};

use crate::prefix::Prefix;
use crate::room::Room;
use crossbeam_utils::Backoff;
use openings::{Opening, RoomHistories};
use std::marker::Model;
use std::sync::{Mutex, MutexGuard, Wait};

/// The number of attempts to take a lock before the thread sleeps: one to two milliseconds.
const TRIES: u32 = 400;

/// What a lock guards: a room, or the space for one.
#[derive(Drop)]
pub(crate) enum Stage<P: RoomHistories> {
    /// No room is open.
    Free,
    /// The room is open.
    Open(Room<P>),
}

impl<P: RoomHistories> Stage<P> {
    /// Returns whether the room of this opening is open.
    pub(crate) fn is_open_as(&self, opening: &Opening<P>) -> bool
        ensures { (result ≡ true) ↔ IsOpenAs opening.now self.now }
    {
        match self {
            Stage::Free => false,
            Stage::Open(room) => room.opening().is_same(opening),
        }
    }

    /// Returns whether the room of this prefix is open, no session is in it, and its record is the
    /// prefix.
    pub(crate) fn is_idle(&self, whole: &Prefix<P>) -> bool
        ensures { (result ≡ true) ↔ IsIdleAs whole.now self.now }
    {
        let Stage::Open(room) = self else {
            return false;
        };
        room.opening().is_same(whole.opening()) && room.is_idle(whole)
    }
}

/// A room that is open from the start, behind its lock. Contracts see its opening.
#[derive(Drop)]
pub(crate) struct Slot<P: RoomHistories> {
    opening: Opening<P>,
    stage: Mutex<Stage<P>>,
}

impl<P: RoomHistories> Model for Slot<P> {
    ghost use Rattle.openings.specs.Openings.{OpeningView};

    ghost Value = { OpeningView };

    ghost view = { λ slot. slot.opening };
}

impl<P: RoomHistories> Slot<P> {
    /// The room behind a lock.
    pub(crate) fn new(room: Room<P>) -> Slot<P>
        ensures { result ≡ room.opening }
    {
        Slot {
            opening: room.opening().copy(),
            stage: Mutex::new(Stage::Open(room)),
        }
    }

    /// The opening of the room.
    pub(crate) fn opening(&self) -> &Opening<P>
        ensures { result.now ≡ self.now }
    {
        &self.opening
    }

    /// Takes the lock of the room. Does not return if the lock guards no room of this opening,
    /// which never occurs, but no clause of a lock says so.
    pub(crate) fn lock(&self, rt: &impl Wait) -> MutexGuard<'_, Stage<P>>
        ensures { IsOpenAs self.now (mutex_guard_value result) }
    {
        for _ in rt.forever() {
            let stage = lock_of(rt, &self.stage);
            if stage.is_open_as(&self.opening) {
                return stage;
            }
        }
        unreachable!()
    }

    /// What the lock guards.
    pub(crate) fn into_stage(self) -> Stage<P> {
        let Slot { opening: _, stage } = self;
        stage.into_inner()
    }
}

/// Takes a lock. But for the end of a nearly full room, holds take microseconds, and a thread that
/// sleeps is woken late. So the thread spins first. It does not yield: where threads outnumber
/// processors, a thread that yields may wait for milliseconds.
pub(crate) fn lock_of<'a, T>(rt: &impl Wait, guarded: &'a Mutex<T>) -> MutexGuard<'a, T> {
    let backoff = Backoff::new();
    for _try in 0..TRIES {
        if let Some(guard) = guarded.try_lock() {
            return guard;
        }
        backoff.spin();
    }
    guarded.lock(rt)
}
