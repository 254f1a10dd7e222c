//! Many rooms, the sessions in them, and scripts of their messages.
#![tactic(auto)]

ghost use Rattle.std.specs.Prelude.{◌≡◌, ◌↔◌, ℕ, length, map, option_map, Some, None, IfOk, OnOk, OnErr, IsErrOf, string_bytes, bytes_eq};
ghost use Rattle.base_types.specs.Repeats.{first_repeat};
ghost use Rattle.rules.specs.declared.refusal.Refusal.{Refusal};
ghost use Rattle.wire_reader.specs.steps.Reads.{request_read, note_request_read};
ghost use Rattle.wire.specs.declared.reply.Reply.TheVariants.{No};
ghost use Rattle.wire.specs.Entering.{room_to_enter};
ghost use Rattle.world.specs.Alone.{Message};
ghost use Rattle.world.specs.Rooms.{place_of, AreEmpty};
ghost use Rattle.world.specs.steps.State.{WorldState, names_in, names_of, new_world, rooms_of, message_of};
ghost use Rattle.world.specs.steps.Steps.{asker_of, lone_refusal, IsTextFor};
ghost use Rattle.world.specs.steps.Runs.{IsStep, AnswersSomeOf};

mod fault;
pub mod laws;
mod named_room;
mod script;
mod seats;
mod sites;

use base_types::{NoMemory, RoomName, RoomsFault, repeated_name};
pub use fault::ScriptFault;
use named_room::{NamedRoom, answer_at, ask_notes_at, empty_rooms, place_of};
use rules::Limits;
use seats::{Asker, Seat, seat_at};
use std::alloc::Global;
use std::collections::BTreeMap;
use std::marker::Model;
use wire::{NoteRequest, Refusal, Reply, Request, write_reply};
use wire_reader::{Scratch, if_in_form, read_note_request, read_request};

/// Rooms, and the sessions that are in them.
#[derive(Drop)]
pub struct World {
    rooms: Vec<NamedRoom>,
    seats: BTreeMap<u32, Seat>,
}

impl Model for World {
    ghost use Rattle.std.specs.Prelude.{length};
    ghost use Rattle.world.specs.steps.State.{WorldState};
    ghost use Rattle.world.specs.steps.Seated.{SeatsWithin};

    ghost Value = { WorldState };

    ghost view = { λ w. record { rooms = w.rooms.items; seats = w.seats.entries } };

    ghost invariant = { λ w. SeatsWithin w.seats.entries (length w.rooms.items) };
}

/// The request that the bytes are a text of, if there is one.
fn request_read(
    alloc: Global,
    scratch: &mut Scratch,
    bytes: &[u8],
) -> Result<Option<Request>, NoMemory>
    ensures { IfOk result (λ request. request ≡ request_read bytes.now) }
{
    if_in_form(read_request(alloc, scratch, bytes))
}

/// The request about notes that the bytes are a text of, if there is one.
fn note_request_read(
    alloc: Global,
    scratch: &mut Scratch,
    bytes: &[u8],
) -> Result<Option<NoteRequest>, NoMemory>
    ensures { IfOk result (λ request. request ≡ note_request_read bytes.now) }
{
    if_in_form(read_note_request(alloc, scratch, bytes))
}

/// The text of a refusal that asks no room.
fn refusal_text(alloc: Global, refusal: Refusal) -> Result<String, NoMemory>
    ensures { IfOk result (λ text. IsTextFor (string_bytes text) (No 0 refusal)) }
{
    let reply = Reply::No { at: 0, refusal };
    let text = write_reply(alloc, &reply);
    drop(reply);
    text
}

/// The room that a request is for, and the session's site there: by the session's seat, or by the
/// name that a join or a back gives.
fn asker_of(
    rooms: &[NamedRoom],
    session: u32,
    seat: Option<Seat>,
    request: &Request,
) -> Option<Asker>
    ensures { result ≡ asker_of (names_in rooms.now) session seat request.now }
{
    if let Some(Seat { place, site }) = seat {
        return Some(Asker {
            session,
            place,
            site: Some(site),
        });
    }
    let name = request.room_to_enter()?;
    let place = place_of(rooms, name)?;
    Some(Asker {
        session,
        place,
        site: None,
    })
}

/// Why a request that is for no room is refused.
fn lone_refusal(request: &Request) -> Refusal
    ensures { result ≡ lone_refusal (room_to_enter request.now) }
{
    match request.room_to_enter() {
        Some(_name) => Refusal::NoSuchRoom,
        None => Refusal::NotJoined,
    }
}

/// The text of the reply to a request that is for no room.
fn lone_text(alloc: Global, request: Request) -> Result<String, NoMemory>
    ensures { let refusal = lone_refusal (room_to_enter request) in
        IfOk result (λ text. IsTextFor (string_bytes text) (No 0 refusal)) }
{
    let refusal = lone_refusal(&request);
    drop(request);
    refusal_text(alloc, refusal)
}

impl World {
    /// Empty rooms of these names, in this order, with nobody in them.
    ///
    /// # Errors
    ///
    /// - `SameName` with the first place, from 0, whose name is also at an earlier place.
    /// - `NoMemory` if an allocation failed.
    pub fn new(alloc: Global, names: &[RoomName], limits: Limits) -> Result<World, RoomsFault>
        ensures ok { IfOk result (λ world. world ≡ new_world names.now limits) }
        ensures names { IfOk result (λ world. names_of world ≡ names.now) }
        ensures empty { IfOk result (λ world.
            AreEmpty limits (length names.now) (rooms_of world)) }
        ensures apart { OnOk result (first_repeat bytes_eq names.now ≡ None) }
        ensures same_name { (place : ℕ) → IsErrOf result (RoomsFault.SameName place)
            ↔ (first_repeat bytes_eq names.now ≡ Some place) }
    {
        if let Some(place) = repeated_name(names) {
            return Err(RoomsFault::SameName(place));
        }
        let rooms = empty_rooms(alloc, names, limits)?;
        let seats = BTreeMap::new(alloc);
        Ok(World { rooms, seats })
    }

    /// Answers a message of a session with the text of the reply. The reply is that of the room
    /// which the session is in or asks to enter. If it shows an object, the versions are the
    /// maximal compatible groups of its changes in that room's record.
    ///
    /// # Errors
    ///
    /// `NoMemory` if an allocation failed. Nothing changes.
    pub fn step(&mut self, alloc: Global, session: u32, bytes: &[u8]) -> Result<String, NoMemory>
        ensures answer { let message = message_of session bytes.now in
            IfOk result (λ text. IsStep self.old message (string_bytes text) self.new) }
        ensures names { names_of self.new ≡ names_of self.old }
        ensures err { OnErr result (self.new ≡ self.old) }
    {
        let mut scratch = Scratch::new(alloc);
        self.step_with(alloc, &mut scratch, session, bytes)
    }

    /// `step` with the caller's memory for reading. A new one costs as much as a short message.
    pub(crate) fn step_with(
        &mut self,
        alloc: Global,
        scratch: &mut Scratch,
        session: u32,
        bytes: &[u8],
    ) -> Result<String, NoMemory>
        ensures answer { let message = message_of session bytes.now in
            IfOk result (λ text. IsStep self.old message (string_bytes text) self.new) }
        ensures names { names_of self.new ≡ names_of self.old }
        ensures err { OnErr result (self.new ≡ self.old) }
    {
        let Some(request) = request_read(alloc, scratch, bytes)? else {
            let asked = note_request_read(alloc, scratch, bytes)?;
            return self.note(alloc, session, asked);
        };
        let seat = seat_at(&self.seats, session);
        let Some(asker) = asker_of(&self.rooms, session, seat, &request) else {
            return lone_text(alloc, request);
        };
        answer_at(alloc, &mut self.rooms, &mut self.seats, asker, request)
    }

    /// Answers bytes that are no other request than one about notes.
    fn note(
        &mut self,
        alloc: Global,
        session: u32,
        asked: Option<NoteRequest>,
    ) -> Result<String, NoMemory>
        ensures answer { (message : Message) → message.session ≡ session
            → request_read message.bytes ≡ None → note_request_read message.bytes ≡ asked
            → IfOk result (λ text. IsStep self.old message (string_bytes text) self.new) }
        ensures names { names_of self.new ≡ names_of self.old }
        ensures err { OnErr result (self.new ≡ self.old) }
    {
        let Some(request) = asked else {
            return refusal_text(alloc, Refusal::BadMessage);
        };
        match seat_at(&self.seats, session) {
            Some(Seat { place, site }) => {
                ask_notes_at(alloc, &mut self.rooms, place, site, request)
            }
            None => refusal_text(alloc, Refusal::NotJoined),
        }
    }

    /// Answers messages in order: for each the text of its reply, or `None` if an allocation failed
    /// for it and it changed nothing. Each room's replies are those of that room alone. Wherever a
    /// reply shows an object, its versions are the maximal compatible groups of its changes.
    ///
    /// # Errors
    ///
    /// `NoMemory` if the list of the answers can't be allocated. Nothing changes.
    pub fn run(
        &mut self,
        alloc: Global,
        messages: &[(u32, Vec<u8>)],
    ) -> Result<Vec<Option<String>>, NoMemory>
        ensures ok { let all = map (λ message. message_of message.0 message.1.items) messages.now in
            IfOk result (λ answers.
            AnswersSomeOf self.old all (map (option_map string_bytes) answers.items) self.new) }
        ensures err { OnErr result (self.new ≡ self.old) }
    {
        let mut answers = Vec::with_capacity(alloc, messages.len())?;
        let mut scratch = Scratch::new(alloc);
        for message in messages {
            let answer = match self.step_with(
                alloc,
                &mut scratch,
                message.0,
                message.1.as_slice(),
            ) {
                Ok(text) => Some(text),
                Err(NoMemory) => None,
            };
            answers.push(answer).unwrap();
        }
        Ok(answers)
    }
}
