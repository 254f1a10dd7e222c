//! Rooms that are opened on demand. Each is in a slot of its own while it is open. A directory owns
//! the openings by name, the indices of the slots that are free, and the register. Between calls
//! each opening stands under the name of its room. Rooms are opened and closed under the lock of
//! the directory, which is taken before that of a slot.

ghost use Rattle.std.specs.Prelude.{◌≡◌, ◌↔◌, ◌∷◌, ◌++◌, ◌<◌, [], IfOk, IfSome, IsNone, None};
ghost use Rattle.std.specs.Prelude.{OnErr, OnOk, Some, bytes_eq, false, true, vec_len};
ghost use Rattle.std.specs.Map.{lookup};
ghost use Rattle.std.specs.Sync.Mutex.{mutex_guard_value};
ghost use Rattle.indexmap.specs.IndexMap.{swap_remove_entry};
ghost use Rattle.room_lock.specs.InOrder.{opening_name};
ghost use Rattle.room_lock.specs.Lookups.{IfKnown, IfNew};
ghost use Rattle.room_lock.specs.declared.slot.Stage.TheVariants as stages;
ghost use Rattle.room_lock.specs.steps.Stages.{IsIdleAs, IsOpenAs};

use crate::lookup::Opened;
use crate::making::insert_new;
use crate::new_room::NewRoom;
use crate::prefix::Prefix;
use crate::room::Room;
use crate::slot::{Stage, lock_of};
use base_types::{NoMemory, RoomName};
use crossbeam_utils::CachePadded;
use indexmap::IndexMap;
use openings::{Opening, Register, RoomHistories};
use room_core::RoomState;
use std::alloc::Global;
use std::marker::Model;
use std::sync::{Mutex, MutexGuard, Wait};

/// The openings of the rooms that are open on demand, by name, the slots that are free, and the
/// register. Contracts see the openings with their names.
#[derive(Drop)]
pub(crate) struct Directory<P: RoomHistories> {
    register: Register<P>,
    openings: IndexMap<RoomName, Opening<P>>,
    /// The slots of rooms that were closed.
    free: Vec<usize>,
    /// The number of slots that were used so far.
    used: usize,
}

impl<P: RoomHistories> Model for Directory<P> {
    ghost use Rattle.std.specs.Prelude.{List};
    ghost use Rattle.base_types.specs.Texts.{Bytes};
    ghost use Rattle.openings.specs.Openings.{OpeningView};
    ghost use Rattle.room_lock.specs.steps.Openings.{AreNamed};

    ghost Value = { List (Bytes × OpeningView) };

    ghost view = { λ d. d.openings.entries };

    ghost invariant = { λ d. AreNamed d.openings.entries };
}

impl<P: RoomHistories> Directory<P> {
    /// No room is open on demand.
    fn new(alloc: Global, register: Register<P>) -> Directory<P>
        ensures { result ≡ [] }
    {
        Directory {
            register,
            openings: IndexMap::new(alloc),
            free: Vec::new(alloc),
            used: 0,
        }
    }

    /// The opening of the room of this name, if it is open on demand.
    fn opening_of(&self, name: &RoomName) -> Option<Opening<P>>
        ensures some { IfSome result (λ opening. opening_name opening ≡ name.now) }
        ensures none { IsNone result → lookup (bytes_eq name.now) self.now ≡ None }
    {
        match self.openings.get_full(name) {
            Some((_index, _name, opening)) => Some(opening.copy()),
            None => None,
        }
    }

    /// A slot that is free, if one of so many is.
    fn free_slot(&self, most: usize) -> Option<usize>
        ensures { IfSome result (λ index. index < most) }
    {
        let index = self.free.last().copied().unwrap_or(self.used);
        if index < most { Some(index) } else { None }
    }

    /// The slot that `free_slot` gave is in use from now on.
    fn use_slot(&mut self)
        ensures { self.new ≡ self.old }
    {
        if self.free.pop().is_none() {
            self.used = self.used.saturating_add(1);
        }
    }

    /// The slot is free again. It is not used again if an allocation failed.
    fn free_up(&mut self, index: usize)
        ensures { self.new ≡ self.old }
    {
        let _ = self.free.push(index);
    }

    /// Takes this opening out, if the room of this name is open as it. Returns whether it was.
    fn end(&mut self, name: &RoomName, opening: &Opening<P>) -> bool
        ensures open { (result ≡ true)
            ↔ (lookup (bytes_eq name.now) self.old ≡ Some opening.now) }
        ensures name { result ≡ true → opening_name opening.now ≡ name.now }
        ensures ended { result ≡ true →
            self.new ≡ swap_remove_entry (bytes_eq name.now) self.old }
        ensures unchanged { result ≡ false → self.new ≡ self.old }
    {
        let Some((_index, _name, found)) = self.openings.get_full(name) else {
            return false;
        };
        if !found.is_same(opening) {
            return false;
        }
        self.openings.swap_remove(name);
        true
    }

    /// Closes the room of a slot, if it is open under this name, no session is in it, and its
    /// record is the prefix. Returns whether it is closed.
    fn close_idle(&mut self, stage: &mut Stage<P>, name: &RoomName, whole: &Prefix<P>) -> bool
        ensures closed { (result ≡ true) ↔ (IsIdleAs whole.now stage.old
            × (lookup (bytes_eq name.now) self.old ≡ Some whole.now.opening)) }
        ensures name { result ≡ true → opening_name whole.now.opening ≡ name.now }
        ensures free { result ≡ true → stage.new ≡ stages.Free }
        ensures ended { result ≡ true →
            self.new ≡ swap_remove_entry (bytes_eq name.now) self.old }
        ensures unchanged { result ≡ false → (stage.new ≡ stage.old) × (self.new ≡ self.old) }
    {
        if !stage.is_idle(whole) || !self.end(name, whole.opening()) {
            return false;
        }
        *stage = Stage::Free;
        true
    }

    /// Opens a room, behind those that are open.
    ///
    /// # Errors
    /// `NoMemory` if an allocation failed. No room more is open.
    fn begin(&mut self, rt: &impl Wait, alloc: Global, new: NewRoom) -> Result<Room<P>, NoMemory>
        // The limits are those that the type names, and the name is new.
        requires limits { new.state.room.limits ≡ P.limits }
        requires name { lookup (bytes_eq new.name) self.old ≡ None }
        ensures opened { IfOk result (λ room.
            self.new ≡ self.old ++ (new.name, room.opening) ∷ []) }
        ensures name { IfOk result (λ room. opening_name room.opening ≡ new.name) }
        ensures entries { IfOk result (λ room. room.entries ≡ new.state.room.entries) }
        ensures err { OnErr result (self.new ≡ self.old) }
    {
        let name = new.name.copy(alloc)?;
        let room = Room::open(rt, alloc, &mut self.register, new)?;
        insert_new(&mut self.openings, name, room.opening().copy())?;
        Ok(room)
    }
}

/// Rooms that are opened on demand. Each has a slot with a lock of its own. Contracts see how many
/// may be open.
#[derive(Drop)]
pub(crate) struct Others<P: RoomHistories> {
    directory: Mutex<Directory<P>>,
    slots: Vec<CachePadded<Mutex<Stage<P>>>>,
    /// The place of the first slot among the places of all rooms.
    first: usize,
}

impl<P: RoomHistories> Model for Others<P> {
    ghost use Rattle.std.specs.Prelude.{ℕ, vec_len};

    ghost Value = { ℕ };

    ghost view = { λ others. vec_len others.slots };
}

impl<P: RoomHistories> Others<P> {
    /// Space for `most` rooms, of which none is open. The place of the first is `first`.
    ///
    /// # Errors
    /// `NoMemory` if an allocation failed.
    pub(crate) fn new(
        alloc: Global,
        register: Register<P>,
        first: usize,
        most: usize,
    ) -> Result<Others<P>, NoMemory>
        ensures { IfOk result (λ others. others ≡ most) }
    {
        let mut slots = Vec::with_capacity(alloc, most)?;
        for _ in 0..most {
            slots.push(CachePadded::new(Mutex::new(Stage::Free)))?;
        }
        Ok(Others {
            directory: Mutex::new(Directory::new(alloc, register)),
            slots,
            first,
        })
    }

    /// How many rooms may be open.
    pub(crate) fn most(&self) -> usize
        ensures { result ≡ self.now }
    {
        self.slots.len()
    }

    /// The opening of the room of this name, if it is open. Waits for the lock of the directory.
    pub(crate) fn opening_of(&self, rt: &impl Wait, name: &RoomName) -> Option<Opening<P>>
        ensures { IfSome result (λ opening. opening_name opening ≡ name.now) }
    {
        lock_of(rt, &self.directory).opening_of(name)
    }

    /// Takes the lock of the room of this opening. `None` if the room is not open as it.
    pub(crate) fn lock(
        &self,
        rt: &impl Wait,
        opening: &Opening<P>,
    ) -> Option<MutexGuard<'_, Stage<P>>>
        ensures open { IfSome result (λ stage. IsOpenAs opening.now (mutex_guard_value stage)) }
        ensures none { self.now ≡ 0 → IsNone result }
    {
        let index = opening.place().checked_sub(self.first)?;
        let stage = lock_of(rt, self.slots.get(index)?);
        if stage.is_open_as(opening) {
            Some(stage)
        } else {
            None
        }
    }

    /// Opens the room of this name with a record, unless it is open or as many are open as may be.
    /// Waits for the locks of the directory and of the slot. Linear in the record for each site.
    ///
    /// # Errors
    /// `NoMemory` if an allocation failed.
    pub(crate) fn open(
        &self,
        rt: &impl Wait,
        alloc: Global,
        name: RoomName,
        state: RoomState,
    ) -> Result<Opened<P>, NoMemory>
        requires { state.room.limits ≡ P.limits }
        ensures new { IfOk result (IfNew (λ begun. (opening_name begun.opening ≡ name)
            × (begun.entries ≡ state.room.entries))) }
        ensures known { IfOk result (IfKnown (λ opening. opening_name opening ≡ name)) }
    {
        let mut directory = lock_of(rt, &self.directory);
        if let Some(opening) = directory.opening_of(&name) {
            return Ok(Opened::Known(opening));
        }
        let Some(index) = directory.free_slot(self.slots.len()) else {
            return Ok(Opened::Full);
        };
        let place = self.first.saturating_add(index);
        let room = directory.begin(rt, alloc, NewRoom { place, name, state })?;
        directory.use_slot();
        let begun = room.prefix();
        *lock_of(rt, &self.slots[index]) = Stage::Open(room);
        Ok(Opened::New(begun))
    }

    /// Returns whether as many rooms are open as may be. Waits for the lock of the directory.
    pub(crate) fn is_full(&self, rt: &impl Wait) -> bool
        ensures { self.now ≡ 0 → result ≡ true }
    {
        lock_of(rt, &self.directory)
            .free_slot(self.slots.len())
            .is_none()
    }

    /// Returns whether the room of this prefix is open, no session is in it, and its record is the
    /// prefix. Waits for the lock of the slot.
    pub(crate) fn is_idle(&self, rt: &impl Wait, whole: &Prefix<P>) -> bool
        ensures { self.now ≡ 0 → result ≡ false }
    {
        match self.lock(rt, whole.opening()) {
            Some(stage) => stage.is_idle(whole),
            None => false,
        }
    }

    /// Closes the room of this name and prefix, if no session is in it, and its record is the
    /// prefix. Returns whether it is closed. Waits for the locks of the directory and of the slot.
    pub(crate) fn close_idle(&self, rt: &impl Wait, name: &RoomName, whole: &Prefix<P>) -> bool
        ensures none { self.now ≡ 0 → result ≡ false }
        ensures name { result ≡ true → opening_name whole.now.opening ≡ name.now }
    {
        let mut directory = lock_of(rt, &self.directory);
        let Some(mut stage) = self.lock(rt, whole.opening()) else {
            return false;
        };
        let is_closed = directory.close_idle(&mut stage, name, whole);
        if is_closed {
            directory.free_up(whole.place().saturating_sub(self.first));
        }
        is_closed
    }

    /// The openings of the rooms that are open, by name, the slots, and the place of the first.
    pub(crate) fn into_parts(
        self,
    ) -> (
        IndexMap<RoomName, Opening<P>>,
        Vec<CachePadded<Mutex<Stage<P>>>>,
        usize,
    )
        ensures { vec_len result.1 ≡ self }
    {
        let Others {
            directory,
            slots,
            first,
        } = self;
        let Directory {
            register: _,
            openings,
            free: _,
            used: _,
        } = directory.into_inner();
        (openings, slots, first)
    }
}
