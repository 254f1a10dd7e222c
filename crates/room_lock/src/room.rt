//! A room under its lock.

ghost use Rattle.std.specs.Prelude.{◌≡◌, ◌≢◌, ◌⊎◌, ◌++◌, ◌∷◌, [], ◌+◌, ◌<◌, ◌≤◌, ◌↔◌, Err, None};
ghost use Rattle.std.specs.Prelude.{Ok, Some, IfErr, IfOk, OnOk, OnErr, false, true, slice_get};
ghost use Rattle.std.specs.Prelude.{Contains, IfSome, IsNone, length, map, option_map};
ghost use Rattle.std.specs.Fn.{FnOnceReturnsAt};
ghost use Rattle.std.specs.Arc.{arc_value};
ghost use mathlib.Core.List.{IsPrefix};
ghost use Rattle.rules.specs.Records.{IsLegal};
ghost use Rattle.rules.specs.declared.limits.TheConstants.Limits.{MAX_ENTRIES};
ghost use Rattle.room_lock.specs.declared.fault.CallFault.TheVariants as call_fault;
ghost use Rattle.room_core.specs.Room.{room_of};
ghost use Rattle.room_core.specs.Answers.{join_answer, answer, room_after};
ghost use Rattle.room_lock.specs.steps.Differences.{first_difference};
ghost use Rattle.room_lock.specs.Sites.{count_of_sites, none_or_one};
ghost use Rattle.room_lock.specs.Closing.{IsClosed};
ghost use Rattle.room_lock.specs.steps.Closing.{IsComplete};
ghost use Rattle.room_lock.specs.steps.Ends.{IsEndOver};
ghost use Rattle.room_lock.specs.declared.fault.CloseFault.TheVariants as close_fault;
ghost use Rattle.room_lock.specs.Shelves.{is_away, part_of};
ghost use Rattle.room_lock.specs.steps.Shelves.{count_away, full_shelf, with_at};
ghost use Rattle.room_lock.specs.Calls.{IsBackOver, IsBackRefusalOver, IsCallOver, IsJoinOver};
ghost use Rattle.room_lock.specs.Calls.{IsLeaveOver, IsNotesCallOver, IsRefusalOver};
ghost use Rattle.wire.specs.Notes.{notes_after, with_note};
ghost use Rattle.notes.specs.Notes.{notes_at};

use crate::account::Account;
use crate::closing::{RoomRecord, added_together};
use crate::entrance::Entrance;
use crate::fault::{CallFault, CloseFault};
use crate::in_use::InUse;
use crate::new_room::NewRoom;
use crate::noted::Noted;
use crate::part::Part;
use crate::pass::Pass;
use crate::prefix::Prefix;
use crate::restoring::fill_shelf;
use crate::shelf::{all_parts, count_away, is_any_away, is_away, put_part, take_part};
use base_types::{NoMemory, RoomName};
use notes::Notes;
use openings::{NewOpening, Opening, Register, RoomHistories};
use room_core::{RoomState, SiteRequest};
use rules::Entry;
use shared_history::open;
use std::alloc::Global;
use std::marker::Model;
use std::sync::{Arc, Wait};
use wire::{NoteRequest, Reply, Request};

/// What a room's lock guards: the room and its history. The shelf holds the parts of the sites that
/// no session is in as. Only other sites have notes.
pub(crate) struct Room<P: RoomHistories> {
    state: RoomState,
    account: Account,
    opening: Opening<P>,
    shelf: Vec<Option<Part<P>>>,
    notes: Notes,
}

impl<P: RoomHistories> Drop for Room<P> {
    fn drop(self) {
        let Room {
            state: _,
            account: _,
            opening: _,
            shelf: _,
            notes: _,
        } = self;
    }
}

impl<P: RoomHistories> Model for Room<P> {
    ghost use Rattle.room_lock.specs.steps.Kept.{IsRoomKept, RoomView};
    ghost use Rattle.room_lock.specs.Shelves.{AreOfSitesIn};

    ghost Value = { RoomView };

    ghost view = { λ r. record {
      opening = r.opening;
      entries = r.state.room.entries;
      shelf = r.shelf.items;
      notes = r.notes;
    } };

    ghost invariant = { λ r. IsRoomKept P.limits r.opening r.state.room r.account r.shelf.items
        × AreOfSitesIn r.shelf.items r.notes };
}

impl<P: RoomHistories> Room<P> {
    ghost use Rattle.room_lock.specs.steps.Entrances.{IfEntered, IfInUse, IfRefused};
    ghost use Rattle.room_lock.specs.declared.entrance.Entrance.TheVariants.{NoRoom};

    /// Opens a room: enters it into the register. It begins with its record. No session is in as
    /// any of its sites: their parts are on the shelf, and have seen the whole record. Linear in
    /// the record for each site. `NoMemory` if an allocation failed, or if the register is full.
    pub(crate) fn open(
        rt: &impl Wait,
        alloc: Global,
        register: &mut Register<P>,
        new: NewRoom,
    ) -> Result<Room<P>, NoMemory>
        // The limits are those that the type names.
        requires limits { new.state.room.limits ≡ P.limits }
        // The opening is the register's next, of this name and place:
        ensures number { IfOk result (λ room. room.opening.number ≡ length register.old) }
        ensures name { IfOk result (λ room. room.opening.room.name ≡ new.name) }
        ensures place { IfOk result (λ room. room.opening.room.place ≡ new.place) }
        ensures register { OnOk result (length register.new ≡ length register.old + 1) }
        ensures entries { IfOk result (λ room. room.entries ≡ new.state.room.entries) }
        ensures shelf { IfOk result (λ room.
            room.shelf ≡ full_shelf room.opening new.state.room.entries) }
        ensures notes { IfOk result (λ room. room.notes ≡ []) }
    {
        let NewRoom { place, name, state } = new;
        let (history, mut front) = open();
        let entered = NewOpening::new(place, name, history);
        let Some(opening) = register.try_enter(rt, &entered) else {
            return Err(NoMemory);
        };
        let history = entered.into_history();
        let _entries = len_of(&state);
        front.add_all(rt, &history, state.entries());
        let account = Account { history, front };
        let whole = Prefix::of_front(&opening, account.front());
        let shelf = fill_shelf(alloc, &state, &whole)?;
        Ok(Room {
            state,
            account,
            opening,
            shelf,
            notes: Notes::none(alloc),
        })
    }

    /// Its opening.
    pub(crate) fn opening(&self) -> &Opening<P>
        ensures { result.now ≡ self.now.opening }
    {
        &self.opening
    }

    /// Its whole record.
    pub(crate) fn prefix(&self) -> Prefix<P>
        ensures { result ≡ record { opening = self.now.opening; entries = self.now.entries } }
    {
        Prefix::of_front(&self.opening, self.account.front())
    }

    /// The entries of its record, in order.
    pub(crate) fn entries(&self) -> &[Arc<Entry>]
        ensures { map arc_value result.now ≡ self.now.entries }
    {
        self.state.entries()
    }

    /// The number of entries of its record.
    pub(crate) fn count_entries(&self) -> usize
        ensures { result ≡ length self.now.entries }
    {
        len_of(&self.state)
    }

    /// How often its notes have changed.
    pub(crate) fn count_note_changes(&self) -> u64 {
        self.notes.count_changes()
    }

    /// Returns whether a session is in as this site.
    pub(crate) fn is_away(&self, site: u32) -> bool
        ensures { result ≡ is_away self.now.shelf site }
    {
        is_away(self.shelf.as_slice(), site)
    }

    /// The number of sites that a session is in as. Linear in the number of sites.
    pub(crate) fn count_away(&self) -> usize
        ensures { result ≡ count_away self.now.shelf }
    {
        count_away(self.shelf.as_slice())
    }

    /// Returns whether no session is in the room and its record is this prefix. Linear in the
    /// number of sites.
    pub(crate) fn is_idle(&self, whole: &Prefix<P>) -> bool
        requires { whole.now.opening ≡ self.now.opening }
        ensures idle { (result ≡ true) ↔ ((whole.now.entries ≡ self.now.entries)
            × ¬ (Contains self.now.shelf None)) }
    {
        let record = self.prefix();
        whole.begins(&record) && record.begins(whole) && !is_any_away(self.shelf.as_slice())
    }

    /// Lets the next site in if the limits allow it, and gives its pass.
    pub(crate) fn enter(&mut self, rt: &impl Wait, alloc: Global) -> Result<Entrance<P>, NoMemory>
        ensures entered { IfOk result (IfEntered (λ pass reply.
            IsJoinOver P.limits self.old.entries pass reply
            × (pass.room ≡ self.old.opening.room.name))) }
        ensures entrance_refused { IfOk result (IfRefused (λ prefix reply.
            IsRefusalOver P.limits self.old.entries reply
            × (prefix ≡ record { opening = self.old.opening; entries = self.old.entries }))) }
        ensures never_in_use { IfOk result (IfInUse (λ it reply. ⊥)) }
        ensures written { let room = room_of P.limits self.old.entries
            in OnOk result (self.new.entries ≡ (room_after room (join_answer room)).entries) }
        ensures known { result ≢ Ok NoRoom }
        ensures pass_opening { IfOk result (IfEntered (λ pass reply.
            pass.part.opening ≡ self.old.opening)) }
        // The shelf gets a place for the new site, and is otherwise unchanged:
        ensures shelf { IfOk result (IfEntered (λ pass reply.
            self.new.shelf ≡ self.old.shelf ++ None ∷ [])) }
        ensures same_shelf { IfOk result (IfRefused (λ prefix reply.
            self.new.shelf ≡ self.old.shelf)) }
        ensures opening { self.new.opening ≡ self.old.opening }
        ensures notes { self.new.notes ≡ self.old.notes }
        ensures err { OnErr result (self.new ≡ self.old) }
    {
        self.shelf.reserve(1)?;
        let had = len_of(&self.state);
        let reply = self.state.join(alloc)?;
        let _has = len_of(&self.state);
        let Some(join) = entry_behind(&self.state, had) else {
            return Ok(Entrance::Refused(self.prefix(), reply));
        };
        self.account.add(rt, Some(join));
        self.shelf.push_reserved(None);
        let part = Part {
            site: self.state.sites(),
            added: 1,
            seen: self.prefix(),
        };
        Ok(Entrance::Entered(Pass { part }, reply))
    }

    /// Lets this site in again if its part is on the shelf.
    pub(crate) fn back(&mut self, site: u32) -> Entrance<P>
        ensures entered { IfEntered (λ pass reply. (was : _)
            × (part_of self.old.shelf site ≡ Some was)
            × IsBackOver P.limits self.old.entries site was pass reply
            × (pass.room ≡ self.old.opening.room.name)) result }
        ensures entrance_refused { IfRefused (λ prefix reply.
            IsBackRefusalOver P.limits self.old.entries site false reply
            × (prefix ≡ record { opening = self.old.opening; entries = self.old.entries })) result }
        ensures in_use { IfInUse (λ it reply.
            IsBackRefusalOver P.limits self.old.entries site true reply
            × (it ≡ record {
              prefix = record { opening = self.old.opening; entries = self.old.entries };
              site = site;
            })
            × (is_away self.old.shelf site ≡ true)) result }
        ensures known { result ≢ NoRoom }
        ensures pass_opening { IfEntered (λ pass reply.
            pass.part.opening ≡ self.old.opening) result }
        // Nothing but the shelf changes:
        ensures shelf { self.new.shelf ≡ with_at self.old.shelf site None }
        ensures entries { self.new.entries ≡ self.old.entries }
        ensures opening { self.new.opening ≡ self.old.opening }
        ensures notes { self.new.notes ≡ self.old.notes }
    {
        let _entries = len_of(&self.state);
        if let Some(in_use) = InUse::of(self, site) {
            return Entrance::InUse(in_use, self.state.back(site, true));
        }
        match take_part(&mut self.shelf, site) {
            Some(mut part) => {
                part.seen = self.prefix();
                let reply = self.state.back(site, false);
                Entrance::Entered(Pass { part }, reply)
            }
            None => Entrance::Refused(self.prefix(), self.state.back(site, false)),
        }
    }

    /// Answers a request of the pass's site. `Torn` if what the pass has seen is no prefix of the
    /// record, with the first place that differs.
    pub(crate) fn call(
        &mut self,
        rt: &impl Wait,
        alloc: Global,
        pass: &mut Pass<P>,
        asked: SiteRequest,
    ) -> Result<Reply, CallFault>
        requires opening { pass.old.part.opening ≡ self.old.opening }
        requires site { asked.site ≡ pass.old.part.site }
        ensures answer { IfOk result
            (IsCallOver P.limits self.old.entries pass.old pass.new asked.request) }
        ensures written { let room = room_of P.limits self.old.entries
            in let outcome = answer room pass.old.part.site asked.request
            in OnOk result (self.new.entries ≡ (room_after room outcome).entries) }
        // The room's opening, its shelf and its notes are unchanged:
        ensures shelf { self.new.shelf ≡ self.old.shelf }
        ensures opening { self.new.opening ≡ self.old.opening }
        ensures notes { self.new.notes ≡ self.old.notes }
        ensures torn { (place : _) → (result ≡ Err (call_fault.Torn place))
            ↔ (first_difference self.old.entries pass.old.part.seen ≡ Some place) }
        ensures err { OnErr result ((self.new ≡ self.old) × (pass.new ≡ pass.old)) }
    {
        if let Some(place) = self.torn_place(pass.part.seen()) {
            return Err(CallFault::Torn { place });
        }
        let part = &mut pass.part;
        let had = len_of(&self.state);
        let reply = self.state.answer(alloc, asked)?;
        let _has = len_of(&self.state);
        let own = entry_behind(&self.state, had);
        self.account.add(rt, own);
        part.added += count_of(own);
        part.seen = self.prefix();
        Ok(reply)
    }

    /// Ends the record where `count_of` gives for it the number of entries that the next record
    /// begins with. Gives the whole record then. It stays open if that gives none, or if no entry
    /// may be added.
    pub(crate) fn end_by<F>(
        &mut self,
        rt: &impl Wait,
        alloc: Global,
        count_of: F,
    ) -> Result<Option<Prefix<P>>, NoMemory>
    where
        F: FnOnce(&RoomState) -> Result<Option<u32>, NoMemory>,
        requires { F.IsAlwaysCallable count_of }
        ensures ended { IfOk result (λ found. IfSome found (λ whole.
            IsEndOver (λ state count. FnOnceReturnsAt F.FnOnce count_of state (Ok (Some count)))
            self.old.entries whole.entries)) }
        ensures whole { IfOk result (λ found. IfSome found (λ whole.
            whole ≡ record { opening = self.old.opening; entries = self.new.entries })) }
        // The room's opening, its shelf and its notes are unchanged, and all of it if the record
        // stays open:
        ensures shelf { self.new.shelf ≡ self.old.shelf }
        ensures opening { self.new.opening ≡ self.old.opening }
        ensures notes { self.new.notes ≡ self.old.notes }
        ensures open { result ≡ Ok None → self.new ≡ self.old }
        ensures err { OnErr result (self.new ≡ self.old) }
    {
        let Some(count) = count_of(&self.state)? else {
            return Ok(None);
        };
        let had = len_of(&self.state);
        if !self.state.end(alloc, count)? {
            return Ok(None);
        }
        let _has = len_of(&self.state);
        self.account.add(rt, entry_behind(&self.state, had));
        Ok(Some(self.prefix()))
    }

    /// Carries out a request about notes of the pass's site. `Torn` if what the pass has seen is no
    /// prefix of the record, or if the site's part is on the shelf, which never occurs.
    pub(crate) fn note(
        &mut self,
        alloc: Global,
        pass: &mut Pass<P>,
        request: NoteRequest,
    ) -> Result<Noted, CallFault>
        requires { pass.old.part.opening ≡ self.old.opening }
        ensures answer { IfOk result (λ noted.
            IsNotesCallOver P.limits self.old.entries self.old.shelf self.old.notes
            pass.old pass.new request noted.reply) }
        // Only the site's own note changes:
        ensures notes { OnOk result (notes_at self.new.notes
            ≡ notes_after pass.old.part.site request (notes_at self.old.notes)) }
        ensures same { self.new ≡ record self.old { notes = self.new.notes } }
        ensures torn { (place : _) → result ≡ Err (call_fault.Torn place)
            → (first_difference self.old.entries pass.old.part.seen ≡ Some place)
            ⊎ (is_away self.old.shelf pass.old.part.site ≡ false) }
        ensures err { OnErr result ((self.new ≡ self.old) × (pass.new ≡ pass.old)) }
    {
        let at = len_of(&self.state);
        if let Some(place) = self.torn_place(pass.part.seen()) {
            return Err(CallFault::Torn { place });
        }
        let site = pass.part.site;
        if !self.is_away(site) {
            return Err(CallFault::Torn { place: at });
        }
        let had = self.notes.count_changes();
        let notes = self.notes.list_after(alloc, site, &request)?;
        self.notes.carry_out(site, request)?;
        pass.part.seen = self.prefix();
        let changes = self.notes.count_changes();
        let at = at as u32;
        Ok(Noted {
            reply: Reply::Notes { at, notes },
            changes,
            is_change: changes != had,
        })
    }

    /// Takes a pass back; its site leaves, and its note is removed. Returns the pass if what it has
    /// seen is no prefix of the record, or if the site's part is on the shelf.
    pub(crate) fn hand_back(&mut self, pass: Pass<P>) -> Result<(Prefix<P>, Reply), Pass<P>>
        requires { pass.part.opening ≡ self.old.opening }
        ensures answer { IfOk result (λ left.
            IsLeaveOver P.limits self.old.entries pass.part left.1) }
        ensures prefix { IfOk result (λ left.
            left.0 ≡ record { opening = self.old.opening; entries = self.old.entries }) }
        // The part is at its site's place on the shelf, the site has no note, and nothing else
        // changes:
        ensures shelf { OnOk result
            (self.new.shelf ≡ with_at self.old.shelf pass.part.site (Some pass.part)) }
        ensures notes { OnOk result
            (notes_at self.new.notes ≡ with_note pass.part.site None (notes_at self.old.notes)) }
        ensures entries { self.new.entries ≡ self.old.entries }
        ensures opening { self.new.opening ≡ self.old.opening }
        ensures pass_given_back { IfErr result (λ back. (back ≡ pass)
            × (first_difference self.old.entries pass.part.seen ≡ None
            → is_away self.old.shelf pass.part.site ≡ false)) }
        ensures err { OnErr result (self.new ≡ self.old) }
    {
        let at = len_of(&self.state) as u32;
        if let Some(_place) = self.torn_place(pass.part.seen()) {
            return Err(pass);
        }
        let prefix = self.prefix();
        let Pass { part } = pass;
        let site = part.site;
        match put_part(&mut self.shelf, part) {
            Ok(()) => {
                self.notes.remove(site);
                Ok((prefix, Reply::Left { at }))
            }
            Err(part) => Err(Pass { part }),
        }
    }

    /// Consumes the room for its record and the parts of its sites. `Missing` if a site's pass was
    /// not handed back, `NoMemory` if an allocation failed.
    pub(crate) fn close(self, alloc: Global, name: RoomName) -> Result<RoomRecord<P>, CloseFault>
        ensures name { IfOk result (λ one. one.room ≡ name) }
        ensures entries { IfOk result (λ one. map arc_value one.entries.items ≡ self.entries) }
        ensures parts { IfOk result (λ one. map Some one.parts.items ≡ self.shelf) }
        ensures closed { IfOk result (λ one. IsClosed P.limits self.entries one.parts.items) }
        ensures missing { IfErr result (λ why. (why ≡ close_fault.NoMemory)
            ⊎ ((why ≡ close_fault.Missing name) × ¬ (IsComplete self.entries self.shelf))) }
    {
        let Room {
            state,
            account: _,
            opening: _,
            shelf,
            notes: _,
        } = self;
        let own = count_of_sites(&state);
        let entries = state.into_entries();
        let Some(parts) = all_parts(alloc, shelf)? else {
            return Err(CloseFault::Missing { room: name });
        };
        if added_together(parts.as_slice()) != own as u128 {
            return Err(CloseFault::Missing { room: name });
        }
        Ok(RoomRecord {
            room: name,
            entries,
            parts,
        })
    }

    /// The first place at which this prefix of the room's history differs from the record. Constant
    /// time, since both are prefixes of one history.
    pub(crate) fn torn_place(&self, seen: &Prefix<P>) -> Option<usize>
        requires { seen.now.opening ≡ self.now.opening }
        ensures place { result ≡ first_difference self.now.entries seen.now.entries }
        ensures begins { IsNone result → IsPrefix seen.now.entries self.now.entries }
    {
        let record = len_of(&self.state);
        let _beside = seen.is_beside(&self.prefix());
        if seen.len() <= record as u64 {
            None
        } else {
            Some(record)
        }
    }
}

/// The number of entries that sites have added: all but the end.
#[tactic(auto, using(crate::proofs::Answers::beside_the_end))]
fn count_of_sites(state: &RoomState) -> usize
    ensures { result ≡ count_of_sites state.now.room.entries }
{
    let len = len_of(state);
    if state.has_ended() {
        len.saturating_sub(1)
    } else {
        len
    }
}

/// The number of entries of the record, which is legal.
fn len_of(state: &RoomState) -> usize
    ensures len { result ≡ length state.now.room.entries }
    ensures legal { IsLegal state.now.room.limits state.now.room.entries }
    ensures short { length state.now.room.entries ≤ MAX_ENTRIES }
{
    let _most = state.limits().entries();
    state.entries().len()
}

/// The entry behind this number of entries of the record, if there is one.
fn entry_behind(state: &RoomState, had: usize) -> Option<&Arc<Entry>>
    ensures { option_map (λ e. arc_value e.now) result ≡ slice_get state.now.room.entries had }
{
    state.entries().get(had)
}

/// 1 if there is an entry, otherwise 0.
fn count_of(own: Option<&Arc<Entry>>) -> u32
    ensures count { result ≡ length (none_or_one (option_map (λ e. arc_value e.now) own.entry)) }
    ensures few { result ≤ 1 }
{
    match own {
        Some(_) => 1,
        None => 0,
    }
}
