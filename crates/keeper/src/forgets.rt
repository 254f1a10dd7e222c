//! The keeper that keeps nothing.

ghost use Rattle.std.specs.Prelude.{◌≡◌, ◌≢◌, ℕ, [], IfOk, None, Ok};
ghost use Rattle.room_lock.specs.InOrder.{IsOpeningFor};
ghost use Rattle.room_lock.specs.Rooms.{IsOnDemand};
ghost use Rattle.keeper.specs.Accesses.{IfKnown, IfNew};
ghost use Rattle.keeper.specs.Chains.{IsLater};

use crate::access::{Access, Reason};
use crate::attempt::Attempt;
use crate::keeper::{Failing, KeepFault, Keeper};
use base_types::{NoMemory, RoomName};
use room_core::RoomState;
use room_lock::{Opened, Opening, Prefix, RoomHistories, Rooms};
use std::alloc::Global;
use std::sync::Wait;
use std::time::Clock;

/// The keeper that keeps nothing: replies are sent at once. It never fails, and needs no thread.
pub struct Forgets;

impl<P: RoomHistories> Keeper<P> for Forgets {
    type Receipt = ();

    type Permit = ();

    ghost shows = { λ _ reported. Unit {0} };

    ghost permits = { λ _ number. Unit {0} };

    ghost fails = { λ _ reported. ⊥ };

    ghost denies = { λ number. ⊥ };

    fn receipt(&self, _rt: &impl Wait, _reported: &Prefix<P>) -> Result<Option<()>, KeepFault> {
        Ok(Some(()))
    }

    /// The room begins with the empty record, and is the first of its chain: no other has ended
    /// here. Who asks for it never has to wait.
    fn open(
        &self,
        rt: &impl Wait,
        alloc: Global,
        rooms: &Rooms<P>,
        name: &RoomName,
    ) -> Result<Access<P>, NoMemory>
        requires { IsOnDemand rooms.now name.now }
        ensures new { IfOk result (IfNew (λ begun.
            IsOpeningFor rooms.now name.now begun.opening)) }
        ensures known { IfOk result (IfKnown (IsOpeningFor rooms.now name.now)) }
        ensures empty { IfOk result (IfNew (λ begun. begun.entries ≡ [])) }
        ensures now { (place : ℕ) → result ≢ Ok (Access.Later place) }
    {
        if !name.is_first() {
            return Ok(Access::NotServed(Reason::File));
        }
        let state = RoomState::new(alloc, rooms.limits())?;
        let copied = name.copy(alloc)?;
        match rooms.open(rt, alloc, copied, state)? {
            Opened::New(begun) => Ok(Access::New(begun)),
            Opened::Known(opening) => Ok(Access::Known(opening)),
            Opened::Full => Ok(Access::NotServed(Reason::Full)),
        }
    }

    /// Rooms end with their records, so no chain goes on.
    fn newest(
        &self,
        _rt: &impl Wait,
        _alloc: Global,
        _name: &RoomName,
    ) -> Result<Option<RoomName>, NoMemory>
        ensures { result ≡ Ok None }
    {
        Ok(None)
    }

    fn permit(&self, _rt: &impl Wait, _opening: &Opening<P>) -> Option<()> {
        Some(())
    }

    fn failing(&self, _rt: &impl Wait, _alloc: Global) -> Option<Failing>
        ensures { result ≡ None }
    {
        None
    }

    fn count_threads(&self) -> usize
        ensures { result ≡ 0 }
    {
        0
    }

    fn count_waiting_places(&self) -> usize
        ensures { result ≡ 0 }
    {
        0
    }

    fn keep_next(
        &self,
        _rt: &(impl Wait + Clock),
        _alloc: Global,
        _rooms: &Rooms<P>,
    ) -> Option<Attempt>
        ensures { result ≡ None }
    {
        None
    }

    fn tick(&self, _rt: &impl Wait, _rooms: &Rooms<P>) {}

    fn end(&self, _rt: &impl Wait) {}

    /// Rooms in memory stay open.
    fn close(&self, _rt: &impl Wait, _alloc: Global, _rooms: &Rooms<P>) {}
}
