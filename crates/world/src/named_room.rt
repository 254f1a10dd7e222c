//! A room under its name, and the list of the rooms.

ghost use Rattle.std.specs.Prelude.{true, ◌≡◌, ◌<◌, [], ℕ, List, length, map, Some, None, IfOk, OnOk, OnErr, string_bytes, slice_set};
ghost use Rattle.rules.specs.Records.{IsLegal};
ghost use Rattle.wire.specs.Form.{AreNotes, IsReply, IsRequest, is_at};
ghost use Rattle.wire.specs.Notes.{all_notes, notes_after};
ghost use Rattle.wire.specs.declared.reply.Reply.TheVariants.{Notes as NotesOf};
ghost use Rattle.room_core.specs.Room.{empty_room, with_entry};
ghost use Rattle.room_core.specs.steps.Plans.{IsPlanReady, Plans, entry_added};
ghost use Rattle.notes.specs.Notes.{notes_at};
ghost use Rattle.world.specs.Rooms.{place_of};
ghost use Rattle.world.specs.Alone.{move_of, notes_after_move, use_after_move};
ghost use Rattle.world.specs.steps.State.{Named, names_in, rooms_in, room_at, is_used, no_sites, uses_in, use_at, notes_of_rooms, notes_of, empty_rooms};
ghost use Rattle.world.specs.steps.Steps.{outside_answer, asker_answer, place_answer, IsTextFor, RepliesTo};

use crate::seats::{Asker, Seat, move_of, move_seat};
use crate::sites::SitesInUse;
use base_types::{NoMemory, RoomName};
use notes::Notes;
use room_core::{Planned, RoomState};
use rules::{Limits, Refusal};
use std::alloc::Global;
use std::collections::BTreeMap;
use std::marker::Model;
use wire::{NoteList, NoteRequest, Reply, Request, write_reply};

/// A room under its name.
#[derive(Drop)]
pub(crate) struct NamedRoom {
    name: RoomName,
    state: RoomState,
    in_use: SitesInUse,
    notes: Notes,
}

impl Model for NamedRoom {
    ghost use Rattle.std.specs.List.{AllByRecursion};
    ghost use Rattle.wire.specs.Form.{IsEntry};
    ghost use Rattle.world.specs.steps.State.{Named};

    ghost Value = { Named };

    ghost view = { λ r. record {
      name = r.name;
      room = r.state.room;
      in_use = r.in_use;
      notes = r.notes;
    } };

    ghost invariant = { λ r. AllByRecursion IsEntry r.state.room.entries };
}

/// A room of this name, with nobody in it.
fn empty_room(alloc: Global, name: &RoomName, limits: Limits) -> Result<NamedRoom, NoMemory>
    ensures { IfOk result (λ room. room ≡ record {
      name = name.now;
      room = empty_room limits;
      in_use = no_sites;
      notes = [];
    }) }
{
    let name = name.copy(alloc)?;
    let in_use = SitesInUse::none(alloc)?;
    let state = RoomState::new(alloc, limits)?;
    Ok(NamedRoom {
        name,
        state,
        in_use,
        notes: Notes::none(alloc),
    })
}

/// Rooms of these names, with nobody in them.
pub(crate) fn empty_rooms(
    alloc: Global,
    names: &[RoomName],
    limits: Limits,
) -> Result<Vec<NamedRoom>, NoMemory>
    ensures { IfOk result (λ rooms. rooms.items ≡ empty_rooms names.now limits) }
{
    let mut rooms = Vec::with_capacity(alloc, names.len())?;
    for name in names {
        rooms.push(empty_room(alloc, name, limits)?)?;
    }
    Ok(rooms)
}

/// The place of the first room of this name.
pub(crate) fn place_of(rooms: &[NamedRoom], name: &RoomName) -> Option<usize>
    ensures { result ≡ place_of (names_in rooms.now) name.now }
{
    rooms.iter().position(|room| room.name == *name)
}

/// Prepares the answer to a request of a site, or of a session that is in no room.
fn plan(
    alloc: Global,
    room: &mut RoomState,
    in_use: &SitesInUse,
    site: Option<u32>,
    request: Request,
) -> Result<Planned, NoMemory>
    ensures { let used = is_used in_use.now in
        Plans room.old room.new (asker_answer room.old.room used site request) result }
{
    match site {
        Some(site) => room.plan(alloc, site, request),
        None => {
            let planned = plan_outside(alloc, room, in_use, &request);
            drop(request);
            planned
        }
    }
}

/// Prepares the answer to a request of a session that is in no room.
fn plan_outside(
    alloc: Global,
    room: &mut RoomState,
    in_use: &SitesInUse,
    request: &Request,
) -> Result<Planned, NoMemory>
    ensures { let used = is_used in_use.now in
        Plans room.old room.new (outside_answer room.old.room used request.now) result }
{
    match request {
        Request::Join { .. } => room.plan_join(alloc),
        Request::Back { room: _, site } => {
            Ok(Planned::of_reply(room.back(*site, in_use.has(*site))))
        }
        _ => Ok(Planned::of_reply(Reply::No {
            at: 0,
            refusal: Refusal::NotJoined,
        })),
    }
}

/// Writes the text of a prepared answer, and moves the session by it.
fn answer_text(
    alloc: Global,
    seats: &mut BTreeMap<u32, Seat>,
    asker: Asker,
    planned: &Planned,
) -> Result<String, NoMemory>
    requires { IsReply planned.now.reply }
    ensures ok { IfOk result (λ text.
        RepliesTo asker planned.now.reply (string_bytes text) seats.old.entries seats.new.entries) }
    ensures err { OnErr result (seats.new.entries ≡ seats.old.entries) }
{
    let reply = planned.reply();
    let text = write_reply(alloc, reply)?;
    move_seat(seats, asker.session, asker.place, reply)?;
    Ok(text)
}

/// Carries out a prepared answer, whose text is written and whose session is moved.
fn put_in_place(
    alloc: Global,
    room: &mut RoomState,
    seats: &mut BTreeMap<u32, Seat>,
    asker: Asker,
    planned: Planned,
) -> Result<String, NoMemory>
    requires ready { IsPlanReady room.old planned.addition }
    requires range { IsReply planned.reply }
    ensures ok { IfOk result (λ text.
        RepliesTo asker planned.reply (string_bytes text) seats.old.entries seats.new.entries) }
    ensures room { OnOk result
        (room.new.room ≡ with_entry room.old.room (entry_added planned.addition)) }
    ensures err { OnErr result ((room.new ≡ room.old) × (seats.new.entries ≡ seats.old.entries)) }
{
    match answer_text(alloc, seats, asker, &planned) {
        Ok(text) => {
            drop(room.commit(planned));
            Ok(text)
        }
        Err(NoMemory) => {
            drop(planned);
            Err(NoMemory)
        }
    }
}

/// Removes the note of a session that was in as a site, if it left by this move. No allocation.
fn remove_note(notes: &mut Notes, now: Option<Option<u32>>, was: Option<u32>)
    ensures { notes_at notes.new ≡ notes_after_move now was (notes_at notes.old) }
{
    if let (Some(None), Some(site)) = (now, was) {
        notes.remove(site);
    }
}

/// The number of entries of the record, which is legal.
fn count_entries(state: &RoomState) -> u32
    ensures len { result ≡ length state.now.room.entries }
    ensures range { is_at result ≡ true }
{
    let _most = state.limits().entries();
    state.entries().len() as u32
}

/// The text of the reply that has these notes.
fn notes_text(alloc: Global, at: u32, notes: NoteList) -> Result<String, NoMemory>
    requires at { is_at at ≡ true }
    requires notes { AreNotes notes }
    ensures { IfOk result (λ text. IsTextFor (string_bytes text) (NotesOf at notes)) }
{
    let reply = Reply::Notes { at, notes };
    let text = write_reply(alloc, &reply);
    drop(reply);
    text
}

impl NamedRoom {
    /// Answers a request of a site, or of a session that is in no room. On `Err` nothing changes.
    fn answer(
        &mut self,
        alloc: Global,
        seats: &mut BTreeMap<u32, Seat>,
        asker: Asker,
        request: Request,
    ) -> Result<String, NoMemory>
        requires { IsRequest request }
        // The reply.
        ensures legal { IsLegal self.old.room.limits self.old.room.entries }
        ensures ok { let in_use = is_used self.old.in_use in
            let reply = (asker_answer self.old.room in_use asker.site request).0 in
            IfOk result (λ text.
            RepliesTo asker reply (string_bytes text) seats.old.entries seats.new.entries) }
        // The room after it.
        ensures room { let in_use = is_used self.old.in_use in
            let added = (asker_answer self.old.room in_use asker.site request).1 in
            OnOk result (self.new.room ≡ with_entry self.old.room added) }
        ensures in_use { let in_use = is_used self.old.in_use in
            let reply = (asker_answer self.old.room in_use asker.site request).0 in
            OnOk result
            (is_used self.new.in_use ≡ use_after_move (move_of reply) asker.site in_use) }
        ensures notes { let in_use = is_used self.old.in_use in
            let reply = (asker_answer self.old.room in_use asker.site request).0 in
            let was = notes_at self.old.notes in
            OnOk result (notes_at self.new.notes ≡ notes_after_move (move_of reply) asker.site was) }
        ensures name { self.new.name ≡ self.old.name }
        ensures err { OnErr result
            ((self.new ≡ self.old) × (seats.new.entries ≡ seats.old.entries)) }
    {
        // The record is legal and the limits are at most the full ones, so the reply is in range.
        let _record = self.state.entries();
        let limits = self.state.limits();
        let (_joins, _entries) = (limits.joins(), limits.entries());
        let planned = plan(alloc, &mut self.state, &self.in_use, asker.site, request)?;
        let moved = move_of(planned.reply());
        let text = put_in_place(alloc, &mut self.state, seats, asker, planned)?;
        self.in_use.follow(moved, asker.site);
        remove_note(&mut self.notes, moved, asker.site);
        Ok(text)
    }

    /// Answers a request about notes of a site. On `Err` nothing changes.
    fn note(&mut self, alloc: Global, site: u32, request: NoteRequest) -> Result<String, NoMemory>
        ensures ok { let notes = notes_after site request (notes_at self.old.notes) in
            let reply = NotesOf (length self.old.room.entries) (all_notes notes) in
            IfOk result (λ text. IsTextFor (string_bytes text) reply) }
        ensures notes { let notes = notes_after site request (notes_at self.old.notes) in
            OnOk result (notes_at self.new.notes ≡ notes) }
        ensures same { self.new ≡ record self.old { notes = self.new.notes } }
        ensures err { OnErr result (self.new ≡ self.old) }
    {
        let at = count_entries(&self.state);
        let notes = self.notes.list_after(alloc, site, &request)?;
        let text = notes_text(alloc, at, notes)?;
        self.notes.carry_out(site, request)?;
        Ok(text)
    }
}

/// Answers a request of a site, or of a session that is in no room. On `Err` nothing changes.
#[tactic(auto, using(crate::proofs::Places::names_set, crate::proofs::Places::rooms_set, crate::proofs::Places::room_at_read))]
pub(crate) fn answer_at(
    alloc: Global,
    rooms: &mut Vec<NamedRoom>,
    seats: &mut BTreeMap<u32, Seat>,
    asker: Asker,
    request: Request,
) -> Result<String, NoMemory>
    requires place { asker.place < length rooms.old.items }
    requires range { IsRequest request }
    // Of the room as it was:
    ensures legal { let room = room_at rooms.old.items asker.place in
        IsLegal room.limits room.entries }
    ensures ok { let reply = (place_answer rooms.old.items asker.place asker.site request).0 in
        IfOk result (λ text.
        RepliesTo asker reply (string_bytes text) seats.old.entries seats.new.entries) }
    // Of the rooms:
    ensures names { names_in rooms.new.items ≡ names_in rooms.old.items }
    ensures rooms { let added = (place_answer rooms.old.items asker.place asker.site request).1 in
        let after = with_entry (room_at rooms.old.items asker.place) added in
        let others = rooms_in rooms.old.items in
        OnOk result (rooms_in rooms.new.items ≡ slice_set others asker.place after) }
    ensures uses { let reply = (place_answer rooms.old.items asker.place asker.site request).0 in
        let after = use_after_move (move_of reply) asker.site (use_at rooms.old.items asker.place) in
        let others = uses_in rooms.old.items in
        OnOk result (uses_in rooms.new.items ≡ slice_set others asker.place after) }
    ensures notes { let reply = (place_answer rooms.old.items asker.place asker.site request).0 in
        let was = notes_of rooms.old.items asker.place in
        let after = notes_after_move (move_of reply) asker.site was in
        let others = notes_of_rooms rooms.old.items in
        OnOk result (notes_of_rooms rooms.new.items ≡ slice_set others asker.place after) }
    ensures err { OnErr result
        ((rooms.new.items ≡ rooms.old.items) × (seats.new.entries ≡ seats.old.entries)) }
{
    rooms[asker.place].answer(alloc, seats, asker, request)
}

/// Answers a request about notes of a site of the room at this place. On `Err` nothing changes.
pub(crate) fn ask_notes_at(
    alloc: Global,
    rooms: &mut Vec<NamedRoom>,
    place: usize,
    site: u32,
    request: NoteRequest,
) -> Result<String, NoMemory>
    requires { place < length rooms.old.items }
    // The reply.
    ensures ok { let notes = notes_after site request (notes_of rooms.old.items place) in
        let reply = NotesOf (length (room_at rooms.old.items place).entries) (all_notes notes) in
        IfOk result (λ text. IsTextFor (string_bytes text) reply) }
    // The rooms after it.
    ensures names { names_in rooms.new.items ≡ names_in rooms.old.items }
    ensures rooms { rooms_in rooms.new.items ≡ rooms_in rooms.old.items }
    ensures uses { uses_in rooms.new.items ≡ uses_in rooms.old.items }
    ensures notes { let after = notes_after site request (notes_of rooms.old.items place) in
        let others = notes_of_rooms rooms.old.items in
        OnOk result (notes_of_rooms rooms.new.items ≡ slice_set others place after) }
    ensures err { OnErr result (rooms.new.items ≡ rooms.old.items) }
{
    rooms[place].note(alloc, site, request)
}
