//! The trait of what keeps the records of rooms: a reply is sent when the keeper has kept what it
//! reports.

ghost use Rattle.std.specs.Prelude.{◌≡◌, IfErr, IfOk, IfSome, IsNone};
ghost use Rattle.room_lock.specs.InOrder.{IsOpeningFor};
ghost use Rattle.room_lock.specs.Rooms.{IsOnDemand};
ghost use Rattle.keeper.specs.Accesses.{IfKnown, IfNew};
ghost use Rattle.keeper.specs.Chains.{IsLater};

use crate::access::Access;
use crate::attempt::Attempt;
use base_types::{NoMemory, RoomName};
use room_lock::{Opening, Prefix, RoomHistories, Rooms};
use std::alloc::Global;
use std::sync::Wait;
use std::time::Clock;
use thiserror::Error;

/// Why what a reply reports of a room is not kept.
#[derive(Clone, Copy, Debug, PartialEq, Eq, Error)]
pub enum KeepFault {
    /// The keeper could not keep the room's record.
    #[error("not kept")]
    NotKept,
    /// An allocation failed.
    #[error("out of memory")]
    NoMemory,
}

/// A room of which the last attempt failed.
#[derive(Debug, Drop, PartialEq, Eq)]
pub struct Failing {
    /// The number of its opening.
    pub number: u64,
    /// Its name, for people. Empty if an allocation failed.
    pub room: String,
}

/// Keeps what replies report of rooms, before they are sent. Who asks for a receipt never waits for
/// a disk: threads of the keeper's own keep what was asked for.
pub trait Keeper<P: RoomHistories> {
    ghost use Rattle.std.specs.Prelude.{ℕ};
    ghost use Rattle.room_lock.specs.Passes.{PrefixView};
    ghost use Rattle.keeper.specs.declared.keeper.KeepFault.{KeepFault};

    /// The proof at run time that a prefix of a record is kept.
    type Receipt: Drop;

    /// The proof at run time that the last attempt to keep a room's record did not fail.
    type Permit: Drop;

    /// The receipt shows that this prefix of a room's record is kept.
    ghost shows: { Self.Receipt → PrefixView → Type 0 };

    /// The permit is for the room of the opening of this number.
    ghost permits: { Self.Permit → ℕ → Type 0 };

    /// The keeper may fail so to keep this prefix.
    ghost fails: { KeepFault → PrefixView → Type 0 };

    /// The keeper may have no permit for the room of the opening of this number.
    ghost denies: { ℕ → Type 0 };

    /// The receipt, if this prefix of a room's record is kept. Otherwise `None`, and a thread of
    /// the keeper keeps the room's record next.
    ///
    /// # Errors
    /// `NotKept` if the prefix is not kept, and the last attempt to keep the room's record failed or
    /// the room is no longer open.
    /// `NoMemory` if that attempt failed for want of memory.
    fn receipt(
        &self,
        rt: &impl Wait,
        reported: &Prefix<P>,
    ) -> Result<Option<Self::Receipt>, KeepFault>
        ensures kept { IfOk result (λ found. IfSome found (λ receipt. shows receipt reported.now)) }
        ensures fault { IfErr result (λ fault. fails fault reported.now) };

    /// Opens the room of this name on demand, or gives its opening if it is open by now. Never
    /// waits for a disk: where the room has a file, a thread of the keeper opens it. Who asks again
    /// once there is news at the place that `Later` names learns what came of it.
    ///
    /// # Errors
    /// `NoMemory` if an allocation failed.
    fn open(
        &self,
        rt: &impl Wait,
        alloc: Global,
        rooms: &Rooms<P>,
        name: &RoomName,
    ) -> Result<Access<P>, NoMemory>
        requires { IsOnDemand rooms.now name.now }
        ensures new { IfOk result (IfNew (λ begun.
            IsOpeningFor rooms.now name.now begun.opening)) }
        ensures known { IfOk result (IfKnown (IsOpeningFor rooms.now name.now)) };

    /// The newest room of the chain of the room of this name, where that has ended. `None` if there
    /// is no later room.
    ///
    /// # Errors
    /// `NoMemory` if an allocation failed.
    fn newest(
        &self,
        rt: &impl Wait,
        alloc: Global,
        name: &RoomName,
    ) -> Result<Option<RoomName>, NoMemory>
        ensures { IfOk result (λ found. IfSome found (IsLater name.now)) };

    /// A permit to let a new site into the room of this opening, or `None` if the last attempt to
    /// keep the room's record failed or the room is no longer open.
    fn permit(&self, rt: &impl Wait, opening: &Opening<P>) -> Option<Self::Permit>
        ensures some { IfSome result (λ permit. permits permit opening.now.number) }
        ensures none { IsNone result → denies opening.now.number };

    /// The first room of which the last attempt failed, if there is one.
    fn failing(&self, rt: &impl Wait, alloc: Global) -> Option<Failing>
        ensures { IfSome result (λ failing. denies failing.number) };

    /// The number of threads that are to call `keep_next`.
    fn count_threads(&self) -> usize;

    /// The number of places, behind those of the rooms, at which who asked for a room may have to
    /// wait.
    fn count_waiting_places(&self) -> usize;

    /// Waits until a room's record is to be kept, or a room is to be opened or closed, and does
    /// that. Gives `None` once `end` was called and each record that was to be kept has had its
    /// attempt.
    fn keep_next(
        &self,
        rt: &(impl Wait + Clock),
        alloc: Global,
        rooms: &Rooms<P>,
    ) -> Option<Attempt>;

    /// Is called once a second. Has each record of which the last attempt failed kept next, and
    /// each room closed that was opened on demand and that nobody has been in for long enough.
    /// Linear in the number of rooms.
    fn tick(&self, rt: &impl Wait, rooms: &Rooms<P>);

    /// Nobody asks for receipts or rooms any more.
    fn end(&self, rt: &impl Wait);

    /// Closes the rooms that were opened on demand, if all that they have is kept. Is called when
    /// all sessions have ended, and the threads that called `keep_next`.
    fn close(&self, rt: &impl Wait, alloc: Global, rooms: &Rooms<P>);
}
