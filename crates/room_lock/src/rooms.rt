//! The rooms.

ghost use Rattle.std.specs.Prelude.{◌≡◌, ◌↔◌, ◌+◌, ◌++◌, ◌<◌, ◌≤◌, ℕ, All, Err, IfErr, IfOk};
ghost use Rattle.std.specs.Prelude.{IfSome, IsErr, IsNone, IsSome, List, OnErr, Ok, false, length};
ghost use Rattle.std.specs.Prelude.{map, option_map, slice_get, true, None, Some};
ghost use Rattle.std.specs.Fn.{FnOnceReturnsAt};
ghost use Rattle.rules.specs.declared.history.Entry.{Entry};
ghost use Rattle.std.specs.Arc.{arc_value};
ghost use Rattle.std.specs.Sync.Mutex.{mutex_guard_value};
ghost use Rattle.base_types.specs.Texts.{Bytes};
ghost use Rattle.room_lock.specs.declared.fault.CallFault.TheVariants as call_fault;
ghost use Rattle.room_lock.specs.declared.lookup.Lookup.TheVariants as lookup;
ghost use Rattle.room_lock.specs.Closing.{IsClosed};
ghost use Rattle.room_lock.specs.steps.Ends.{IsEndOver};
ghost use Rattle.room_lock.specs.InOrder.{IsOpeningFor};
ghost use Rattle.room_lock.specs.steps.Openings.{MayBeOf};
ghost use Rattle.room_lock.specs.Rooms.{IsListOf, IsOffered, IsOnDemand, Serves};
ghost use Rattle.room_lock.specs.Lookups.{IfKnown, IfNew, IfOpen};
ghost use Rattle.room_lock.specs.steps.Stages.{IsOpenAs};
ghost use Rattle.room_lock.specs.Calls.{IsBack, IsBackRefusalOver, IsCall, IsJoin, IsLeaveOver};
ghost use Rattle.room_lock.specs.Calls.{IsNotesCall, IsRefusalOver};

use crate::closing::{RoomRecord, close_all, close_others};
use crate::entrance::Entrance;
use crate::fault::{CallFault, CloseFault};
use crate::lookup::{Lookup, Opened};
use crate::news::News;
use crate::noted::Noted;
use crate::offered::Offered;
use crate::others::Others;
use crate::pass::Pass;
use crate::prefix::Prefix;
use crate::progress::Progress;
use crate::slot::{Slot, Stage};
use base_types::{NoMemory, RoomName};
use crossbeam_utils::CachePadded;
use indexmap::IndexMap;
use openings::{Opening, RoomHistories};
use room_core::{RoomState, SiteRequest};
use rules::Limits;
use std::alloc::Global;
use std::marker::Model;
use std::sync::{MutexGuard, Wait};
use wire::{NoteRequest, Reply, Request};

/// Rooms, each behind a lock of its own: those that are open from the start, by name, and those
/// that are opened on demand. Each lock has its own cache line, so threads in different rooms do
/// not contend for one. Contracts see the names of the first, in order, how many others may be
/// open, and which.
#[derive(Drop)]
pub struct Rooms<P: RoomHistories> {
    pub(crate) rooms: IndexMap<RoomName, CachePadded<Slot<P>>>,
    pub(crate) others: Others<P>,
    pub(crate) offered: Offered,
    pub(crate) limits: Limits,
}

impl<P: RoomHistories> Model for Rooms<P> {
    ghost use Rattle.std.specs.Prelude.{◌≡◌, ◌≤◌, ◌<◌, ◌^◌, length, map};
    ghost use Rattle.indexmap.specs.IndexMap.{keys};
    ghost use Rattle.crossbeam_utils.specs.Padded.{padded_value};
    ghost use Rattle.room_lock.specs.InOrder.{AreInOrder};
    ghost use Rattle.room_lock.specs.Rooms.{RoomsView};

    ghost Value = { RoomsView };

    ghost view = { λ r. record {
      names = keys r.rooms;
      others = r.others;
      offered = r.offered;
    } };

    ghost invariant = { λ r.
        AreInOrder (keys r.rooms) (map (λ room. padded_value room.1) r.rooms.entries)
        × (r.limits ≡ P.limits) × (length (keys r.rooms) ≤ 2 ^ 49) × (r.others < 2 ^ 32) };
}

impl<P: RoomHistories> Rooms<P> {
    ghost use Rattle.room_lock.specs.steps.Entrances.{IfEntered, IfInUse, IfRefused};
    ghost use Rattle.room_lock.specs.declared.entrance.Entrance.TheVariants.{NoRoom};

    /// Takes the lock of the room of this opening. `None` if it is none of these rooms, or not
    /// open.
    fn lock(&self, rt: &impl Wait, opening: &Opening<P>) -> Option<MutexGuard<'_, Stage<P>>>
        ensures open { IfSome result (λ stage. IsOpenAs opening.now (mutex_guard_value stage)) }
        ensures first { opening.now.number < length self.now.names → IsSome result }
        ensures none { ¬ (MayBeOf self.now opening.now) → IsNone result }
    {
        match self.rooms.get_index(opening.number() as usize) {
            Some((_name, room)) => {
                let room: &Slot<P> = room;
                room.opening().agree(opening);
                Some(room.lock(rt))
            }
            None => self.others.lock(rt, opening),
        }
    }

    /// Returns whether this is the opening of a room that is open from the start.
    fn is_first(&self, opening: &Opening<P>) -> bool
        ensures { (result ≡ true) ↔ (opening.now.number < length self.now.names) }
    {
        opening.number() < self.rooms.len() as u64
    }

    /// Returns whether the room of this name may be opened on demand, unless it is open from the
    /// start.
    fn may_open(&self, name: &RoomName) -> bool
        ensures { (result ≡ true) ↔ IsOffered self.now name.now }
    {
        self.others.most() > 0 && self.offered.has(name)
    }

    /// The limits of the rooms.
    pub fn limits(&self) -> Limits
        ensures { result ≡ P.limits }
    {
        self.limits
    }

    /// The number of places: one for each room that is open from the start, and one for each other
    /// that may be open.
    pub fn count_places(&self) -> usize
        ensures { result ≡ length self.now.names + self.now.others }
    {
        self.rooms.len() + self.others.most()
    }

    /// The name of the room at a place, from 0, that is open from the start, or `None` if there is
    /// no such room.
    pub fn name_at(&self, place: usize) -> Option<&RoomName>
        ensures { option_map (λ name. name.now) result ≡ slice_get self.now.names place }
    {
        let (name, _room) = self.rooms.get_index(place)?;
        Some(name)
    }

    /// Looks up the room of this name. Where it is open, gives its opening. Waits for the lock of
    /// the directory if the room is opened on demand. Constant time, but for the number of chains
    /// where only the rooms of some are offered and the room is not open from the start.
    pub fn opening_of(&self, rt: &impl Wait, name: &RoomName) -> Lookup<P>
        ensures open { IfOpen (λ opening. Serves self.now name.now
            × IsOpeningFor self.now name.now opening) result }
        ensures closed { result ≡ lookup.Closed → IsOnDemand self.now name.now }
        ensures no_room { (result ≡ lookup.NoRoom) ↔ ¬ (Serves self.now name.now) }
    {
        if let Some((_place, _name, room)) = self.rooms.get_full(name) {
            return Lookup::Open(room.opening().copy());
        }
        if !self.may_open(name) {
            return Lookup::NoRoom;
        }
        match self.others.opening_of(rt, name) {
            Some(opening) => Lookup::Open(opening),
            None => Lookup::Closed,
        }
    }

    /// Opens the room of this name on demand. It begins with this record. Waits for the lock of the
    /// directory. Linear in the record for each of its sites.
    ///
    /// # Errors
    /// `NoMemory` if an allocation failed. The room is not open then.
    pub fn open(
        &self,
        rt: &impl Wait,
        alloc: Global,
        name: RoomName,
        state: RoomState,
    ) -> Result<Opened<P>, NoMemory>
        requires limits { state.room.limits ≡ P.limits }
        requires on_demand { IsOnDemand self.now name }
        ensures new { IfOk result (IfNew (λ begun. IsOpeningFor self.now name begun.opening
            × (begun.entries ≡ state.room.entries))) }
        ensures known { IfOk result (IfKnown (IsOpeningFor self.now name)) }
    {
        self.others.open(rt, alloc, name, state)
    }

    /// Returns whether as many rooms are open on demand as may be. Waits for the lock of the
    /// directory. Constant time.
    pub fn is_full(&self, rt: &impl Wait) -> bool
        ensures none { self.now.others ≡ 0 → result ≡ true }
    {
        self.others.is_full(rt)
    }

    /// Returns whether the room of this prefix is open on demand, no session is in it, and its
    /// record is the prefix. Waits for the room's lock. Linear in the number of its sites.
    pub fn is_idle(&self, rt: &impl Wait, whole: &Prefix<P>) -> bool
        ensures first { whole.now.opening.number < length self.now.names → result ≡ false }
        ensures none { ¬ (MayBeOf self.now whole.now.opening) → result ≡ false }
    {
        !self.is_first(whole.opening()) && self.others.is_idle(rt, whole)
    }

    /// Closes the room of this name and prefix, if it is open on demand, no session is in it, and
    /// its record is the prefix. Returns whether it is closed. Its name is then free for another
    /// opening, and its place too, unless an allocation failed. Waits for the locks of the
    /// directory and of the room. Linear in the number of its sites. That a room with more entries,
    /// or with a session in it, stays open is a clause of the room under its lock.
    pub fn close_idle(&self, rt: &impl Wait, name: &RoomName, whole: &Prefix<P>) -> bool
        ensures name { result ≡ true → whole.now.opening.room.name ≡ name.now }
        ensures first { whole.now.opening.number < length self.now.names → result ≡ false }
        ensures none { ¬ (MayBeOf self.now whole.now.opening) → result ≡ false }
    {
        !self.is_first(whole.opening()) && self.others.close_idle(rt, name, whole)
    }

    /// How much has been done in the pass's room, or `None` if the pass belongs to other rooms.
    /// Waits for the room's lock. Constant time.
    pub fn progress(&self, rt: &impl Wait, pass: &Pass<P>) -> Option<Progress>
        ensures first { pass.now.part.opening.number < length self.now.names → IsSome result }
        ensures none { ¬ (MayBeOf self.now pass.now.part.opening) → IsNone result }
    {
        match &*self.lock(rt, pass.opening())? {
            Stage::Open(room) => Some(Progress {
                entries: room.count_entries(),
                note_changes: room.count_note_changes(),
            }),
            Stage::Free => unreachable!(),
        }
    }

    /// The number of sessions in the room of this opening; 0 if it is none of these rooms. Waits
    /// for the room's lock. Linear in the number of its sites.
    pub fn count_sessions(&self, rt: &impl Wait, opening: &Opening<P>) -> usize
        ensures { ¬ (MayBeOf self.now opening.now) → result ≡ 0 }
    {
        let Some(stage) = self.lock(rt, opening) else {
            return 0;
        };
        match &*stage {
            Stage::Open(room) => room.count_away(),
            Stage::Free => unreachable!(),
        }
    }

    /// Lets the next site into the room of this opening if the room's limits allow it. Gives its
    /// pass and the reply. Where the room refuses, gives the record at that time and the reply.
    /// Waits for the room's lock. The time does not depend on the size of the record.
    ///
    /// # Errors
    /// `NoMemory` if an allocation failed. That no room has changed is a clause of the room under
    /// its lock.
    pub fn join(
        &self,
        rt: &impl Wait,
        alloc: Global,
        opening: &Opening<P>,
    ) -> Result<Entrance<P>, NoMemory>
        ensures entered { IfOk result (IfEntered (λ pass reply.
            IsJoin P.limits pass reply × (pass.room ≡ opening.now.room.name))) }
        ensures entrance_refused { IfOk result (IfRefused (λ prefix reply.
            IsRefusalOver P.limits prefix.entries reply)) }
        ensures never_in_use { IfOk result (IfInUse (λ it reply. ⊥)) }
        ensures no_room { result ≡ Ok NoRoom → length self.now.names ≤ opening.now.number }
        ensures other_rooms { ¬ (MayBeOf self.now opening.now) → result ≡ Ok NoRoom }
        // The pass, or the record, is that of this opening:
        ensures pass_opening { IfOk result (IfEntered (λ pass reply.
            pass.part.opening ≡ opening.now)) }
        ensures refusal_opening { IfOk result (IfRefused (λ prefix reply.
            prefix.opening ≡ opening.now)) }
    {
        let Some(mut stage) = self.lock(rt, opening) else {
            return Ok(Entrance::NoRoom);
        };
        match &mut *stage {
            Stage::Open(room) => room.enter(rt, alloc),
            Stage::Free => unreachable!(),
        }
    }

    /// Lets a site into the room of this opening again, if the site has joined and no session is in
    /// as it. Gives its pass and the reply. The pass has then seen the whole record, which begins
    /// with what the site had seen. Where a session is in as the site, gives the proof of that and
    /// the reply. Where the site has not joined, gives the record at that time and the reply.
    /// Allocates nothing. Waits for the room's lock. The time does not depend on the size of the
    /// record.
    pub fn back(&self, rt: &impl Wait, opening: &Opening<P>, site: u32) -> Entrance<P>
        ensures entered { IfEntered (λ pass reply.
            IsBack P.limits site pass reply × (pass.room ≡ opening.now.room.name)) result }
        ensures entrance_refused { IfRefused (λ prefix reply.
            IsBackRefusalOver P.limits prefix.entries site false reply) result }
        // Only a room under its lock gives the proof that a session is in as the site:
        ensures in_use { IfInUse (λ it reply. (it.site ≡ site)
            × IsBackRefusalOver P.limits it.prefix.entries site true reply) result }
        ensures no_room { result ≡ NoRoom → length self.now.names ≤ opening.now.number }
        ensures other_rooms { ¬ (MayBeOf self.now opening.now) → result ≡ NoRoom }
        // The pass, or the record, is that of this opening:
        ensures pass_opening { IfEntered (λ pass reply.
            pass.part.opening ≡ opening.now) result }
        ensures refusal_opening { IfRefused (λ prefix reply. prefix.opening ≡ opening.now) result }
        ensures in_use_opening { IfInUse (λ it reply.
            it.prefix.opening ≡ opening.now) result }
    {
        let Some(mut stage) = self.lock(rt, opening) else {
            return Entrance::NoRoom;
        };
        match &mut *stage {
            Stage::Open(room) => room.back(site),
            Stage::Free => unreachable!(),
        }
    }

    /// Answers a request of the pass's site. The pass has then seen the room's whole record.
    /// `leave` is answered too, and the pass stays valid: `hand_back` takes it. Waits for the
    /// room's lock. Apart from the answer itself, the time does not depend on the size of the
    /// record.
    ///
    /// # Errors
    /// The pass is unchanged.
    /// `NoMemory` if an allocation failed.
    /// `Torn` if the pass belongs to other rooms. The room under its lock also tells a pass that
    /// has seen more than the record, which never occurs.
    pub fn call(
        &self,
        rt: &impl Wait,
        alloc: Global,
        pass: &mut Pass<P>,
        request: Request,
    ) -> Result<Reply, CallFault>
        ensures answer { IfOk result (IsCall P.limits pass.old pass.new request) }
        ensures err { OnErr result (pass.new ≡ pass.old) }
        ensures other_rooms { ¬ (MayBeOf self.now pass.old.part.opening)
            → result ≡ Err (call_fault.Torn 0) }
    {
        // Before the lock, so that it is held for a shorter time.
        let asked = SiteRequest::new(alloc, pass.part().site(), request);
        let Some(mut stage) = self.lock(rt, pass.opening()) else {
            return Err(CallFault::Torn { place: 0 });
        };
        match &mut *stage {
            Stage::Open(room) => room.call(rt, alloc, pass, asked?),
            Stage::Free => unreachable!(),
        }
    }

    /// Carries out a request about notes of the pass's site: only this site's note changes. Returns
    /// all notes of the room. The pass has then seen the room's whole record, to which nothing is
    /// added. Waits for the room's lock. Linear in the greatest number of sites.
    ///
    /// # Errors
    /// The pass is unchanged. That no note has changed is a clause of the room under its lock.
    /// `NoMemory` if an allocation failed.
    /// `Torn` if the pass belongs to other rooms. The room under its lock also tells a pass that
    /// has seen more than the record, or whose site is free, which never occurs.
    pub fn note(
        &self,
        rt: &impl Wait,
        alloc: Global,
        pass: &mut Pass<P>,
        request: NoteRequest,
    ) -> Result<Noted, CallFault>
        ensures answer { IfOk result (λ noted.
            IsNotesCall P.limits pass.old pass.new request noted.reply) }
        ensures err { OnErr result (pass.new ≡ pass.old) }
        ensures other_rooms { ¬ (MayBeOf self.now pass.old.part.opening)
            → result ≡ Err (call_fault.Torn 0) }
    {
        let Some(mut stage) = self.lock(rt, pass.opening()) else {
            return Err(CallFault::Torn { place: 0 });
        };
        match &mut *stage {
            Stage::Open(room) => room.note(alloc, pass, request),
            Stage::Free => unreachable!(),
        }
    }

    /// Takes a pass back, and replies as to a `leave` of its site, with the record at that time.
    /// Removes the site's note.
    /// Allocates nothing. Waits for the room's lock. That the site is then free for a coming back
    /// is a clause of the room under its lock.
    ///
    /// # Errors
    /// The pass, if it belongs to other rooms. The room under its lock also returns a pass that has
    /// seen more than the record, or whose site is free, which never occurs.
    pub fn hand_back(&self, rt: &impl Wait, pass: Pass<P>) -> Result<(Prefix<P>, Reply), Pass<P>>
        ensures answer { IfOk result (λ left.
            IsLeaveOver P.limits left.0.entries pass.part left.1) }
        ensures opening { IfOk result (λ left. left.0.opening ≡ pass.part.opening) }
        ensures back { IfErr result (λ back. back ≡ pass) }
        ensures other_rooms { ¬ (MayBeOf self.now pass.part.opening) → IsErr result }
    {
        let Some(mut stage) = self.lock(rt, pass.opening()) else {
            return Err(pass);
        };
        match &mut *stage {
            Stage::Open(room) => room.hand_back(pass),
            Stage::Free => unreachable!(),
        }
    }

    /// Ends the record of the room of this opening, where `count_of` gives for the room the number
    /// of entries that the next record begins with. Gives the whole record then. The record stays
    /// open if `count_of` gives none, if no entry may be added, or if it is none of these rooms.
    /// Waits for the room's lock, and holds it while `count_of` runs.
    ///
    /// # Errors
    /// `NoMemory` if an allocation failed. That no room has changed is a clause of the room under
    /// its lock.
    pub fn end_by<F>(
        &self,
        rt: &impl Wait,
        alloc: Global,
        opening: &Opening<P>,
        count_of: F,
    ) -> Result<Option<Prefix<P>>, NoMemory>
    where
        F: FnOnce(&RoomState) -> Result<Option<u32>, NoMemory>,
        requires { F.IsAlwaysCallable count_of }
        // Only a room under its lock gives it: its record, which has got its end.
        ensures ended { IfOk result (λ found. IfSome found (λ whole. (r : List Entry)
            × IsEndOver (λ state count. FnOnceReturnsAt F.FnOnce count_of state (Ok (Some count)))
            r whole.entries)) }
        ensures opening { IfOk result (λ found. IfSome found
            (λ whole. whole.opening ≡ opening.now)) }
        ensures other_rooms { ¬ (MayBeOf self.now opening.now) → result ≡ Ok None }
    {
        let Some(mut stage) = self.lock(rt, opening) else {
            return Ok(None);
        };
        match &mut *stage {
            Stage::Open(room) => room.end_by(rt, alloc, count_of),
            Stage::Free => unreachable!(),
        }
    }

    /// All that the prefix's room has, and the entries behind the prefix. Waits for the room's
    /// lock. Linear in these entries.
    ///
    /// # Errors
    /// `NoMemory` if an allocation failed.
    /// `Torn` if the prefix belongs to other rooms. The room under its lock also tells a prefix
    /// that has more entries than the record, which never occurs.
    pub fn news(
        &self,
        rt: &impl Wait,
        alloc: Global,
        since: &Prefix<P>,
    ) -> Result<News<P>, CallFault>
        // Only a room under its lock gives news: its whole record, and what that has behind.
        ensures entries { IfOk result (λ news. since.now.entries ++ news.entries
            ≡ news.whole.entries) }
        ensures opening { IfOk result (λ news. news.whole.opening ≡ since.now.opening) }
        ensures other_rooms { ¬ (MayBeOf self.now since.now.opening)
            → result ≡ Err (call_fault.Torn 0) }
    {
        let Some(stage) = self.lock(rt, since.opening()) else {
            return Err(CallFault::Torn { place: 0 });
        };
        match &*stage {
            Stage::Open(room) => News::of(room, alloc, since),
            Stage::Free => unreachable!(),
        }
    }
}

impl<P: RoomHistories> Rooms<P> {
    /// Consumes the rooms for their records, each with the parts of its sites: those that were open
    /// from the start, in order, and then those that were opened. Each record is legal. Linear in
    /// the number of sites.
    ///
    /// # Errors
    /// `Missing` for the first room of which a pass was not handed back, which tests show.
    /// `NoMemory` if an allocation failed.
    pub fn close(self, alloc: Global) -> Result<Vec<RoomRecord<P>>, CloseFault>
        ensures names { IfOk result (λ records. IsListOf self
            (map (λ one. one.room) records.items)) }
        ensures closed { IfOk result (λ records. All (λ one. IsClosed P.limits
            (map arc_value one.entries.items) one.parts.items) records.items) }
    {
        let mut records = close_all(alloc, self.rooms)?;
        close_others(alloc, self.others, &mut records)?;
        Ok(records)
    }
}
