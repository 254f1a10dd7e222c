//! A session: the messages of one client, one after the other.

ghost use Rattle.std.specs.Prelude.{◌≡◌, ◌≢◌, ◌⊎◌, ◌↔◌, Err, IfErr, IfOk, IfSome, IsNone, IsTrue};
ghost use Rattle.std.specs.Prelude.{OnErr, None, Ok, Some, false, true};
ghost use Rattle.std.specs.Prelude.{MatchOption, option_map, string_bytes};
ghost use Rattle.wire.specs.declared.request.Request.TheVariants.{Join, Back, Leave};
ghost use Rattle.sessions.specs.declared.cause.MessageFault.TheVariants as message_fault;
ghost use Rattle.sessions.specs.steps.Calls.{IsCallIf};
ghost use Rattle.sessions.specs.steps.Entrances.{IsAfter};
ghost use Rattle.sessions.specs.steps.Replies.{turn_of};
ghost use Rattle.room_lock.specs.Calls.{IsCall, IsNotesCall};
ghost use Rattle.room_lock.specs.InOrder.{IsOpeningFor};
ghost use Rattle.room_lock.specs.Passes.{prefix_of};
ghost use Rattle.room_lock.specs.steps.Openings.{MayBeOf};
ghost use Rattle.room_lock.specs.Rooms.{IsOnDemand};
ghost use Rattle.room_lock.specs.declared.lookup.Lookup.TheVariants as lookup;
ghost use Rattle.room_lock.specs.steps.Entrances.{IfEntered};
ghost use Rattle.room_lock.specs.Lookups.{IfOpen};
ghost use Rattle.keeper.specs.Accesses.{IfKnown, IfNew};
ghost use Rattle.keeper.specs.Chains.{IsLater};
ghost use Rattle.scope.specs.Scopes.{allows};
ghost use Rattle.sessions.specs.Sessions.{host_of};
ghost use Rattle.sessions.specs.Entering.{MayEnter};
ghost use Rattle.sessions.specs.Turns.{IsAnswer, IsNotesTurn, IsTextOfTurn, IsTurn, MayStand};
ghost use Rattle.sessions.specs.Waits.{AsksToOpen, IsWait, IsWaitInRoom};

use crate::cause::MessageFault;
use crate::host::Host;
use crate::observer::Observer;
use crate::session_reply::SessionReply;
use base_types::{NoMemory, RoomName};
use connection::Answer;
use keeper::{Access, Keeper, Reason};
use room_lock::{Entrance, Lookup, Pass, Prefix, RoomHistories};
use scope::Scope;
use std::marker::Model;
use std::sync::Wait;
use wire::{NoteRequest, Refusal, Request};
use wire_reader::{ReadFault, Scratch, read_note_request, read_request};

/// What a session has heard of the notes of its room.
#[derive(Clone, Copy, Debug, PartialEq, Eq)]
struct Heard {
    /// How often notes had changed.
    changes: u64,
    /// How often the room had been rung before that.
    rings: u64,
}

/// A session's pass, and the name of its room. Contracts see the pass.
struct Inside<P: RoomHistories> {
    room: RoomName,
    pass: Pass<P>,
    /// What the session last heard of notes, once it has asked for them.
    heard_notes: Option<Heard>,
}

impl<P: RoomHistories> Model for Inside<P> {
    ghost use Rattle.std.specs.Prelude.{◌≡◌};
    ghost use Rattle.room_lock.specs.Passes.{PassView};

    ghost Value = { PassView };

    ghost view = { λ inside. inside.pass };

    ghost invariant = { λ inside. inside.room ≡ inside.pass.room };
}

/// A session: which rooms it may enter, and its pass if it is in a room. It cannot be dropped:
/// `end` hands the pass back.
pub struct Session<P: RoomHistories> {
    scope: Scope,
    inside: Option<Inside<P>>,
    /// The place at which there will be news of the room that its held message asks for.
    awaited: Option<usize>,
}

impl<P: RoomHistories> Model for Session<P> {
    ghost use Rattle.sessions.specs.Sessions.{SessionView};

    ghost Value = { SessionView };

    ghost view = { λ s. record { scope = s.scope; pass = s.inside } };
}

impl<P: RoomHistories> Inside<P> {
    /// Returns whether the room's record has exactly this many entries, and there is no news of
    /// notes.
    fn waits_at<R: Wait, O, K>(&mut self, host: &Host<'_, P, R, O, K>, from: u32) -> bool
        ensures { self.new ≡ self.old }
    {
        let Some(progress) = host.rooms.progress(host.rt, &self.pass) else {
            return false;
        };
        let now = Heard {
            changes: progress.note_changes,
            rings: host.chime.count_rings(self.pass.place()),
        };
        progress.entries == from as usize && !self.hears_of_notes(now)
    }

    /// Returns whether there is news of notes: one has changed, and the room was rung since. The
    /// session has heard of it then. For one that has not asked for notes there is none.
    fn hears_of_notes(&mut self, now: Heard) -> bool
        ensures { self.new ≡ self.old }
    {
        match self.heard_notes {
            Some(heard) if heard.changes != now.changes && heard.rings != now.rings => {
                self.heard_notes = Some(now);
                true
            }
            _ => false,
        }
    }
}

impl<P: RoomHistories> Session<P> {
    /// A session of this scope, in no room.
    pub fn new(scope: Scope) -> Session<P>
        ensures { result ≡ record { scope = scope; pass = None } }
    {
        Session {
            scope,
            inside: None,
            awaited: None,
        }
    }

    /// The place at which there is news for the session: that of its room, or else the one at
    /// which it waits for a room to be opened.
    pub fn place(&self) -> Option<usize> {
        match &self.inside {
            Some(inside) => Some(inside.pass.place()),
            None => self.awaited,
        }
    }

    /// Returns whether the session is in no room.
    pub fn is_outside(&self) -> bool
        ensures { (result ≡ true) ↔ (self.now.pass ≡ None) }
    {
        self.inside.is_none()
    }

    /// The name of the room, if the session is in a room.
    pub fn room(&self) -> Option<&RoomName>
        ensures { option_map (λ name. name.now) result
            ≡ option_map (λ pass. pass.room) self.now.pass }
    {
        match &self.inside {
            Some(inside) => Some(&inside.room),
            None => None,
        }
    }

    /// Ends the session, and frees its site for a coming back.
    pub fn end<R: Wait, O, K>(self, host: &Host<'_, P, R, O, K>) {
        let Session {
            scope: _,
            inside,
            awaited: _,
        } = self;
        let Some(
            Inside {
                room: _,
                pass,
                heard_notes,
            },
        ) = inside
        else {
            return;
        };
        let place = pass.place();
        match host.rooms.hand_back(host.rt, pass) {
            Ok(_) if heard_notes.is_some() => host.chime.strike(host.rt, place),
            Ok(_) => {}
            Err(stray) => stray.give_up(),
        }
    }

    /// Answers one message, and returns the text of the reply with what it reports of a room. Or
    /// holds the message: then it is `None`, and nothing has changed.
    /// The session itself refuses five things. These are bytes that are no request, `join` and
    /// `back` in a room, all others in no room, rooms that do not exist or are not in its
    /// scope, and rooms that cannot be opened now, or for which the keeper has no permit. Where the
    /// chain of a room goes on elsewhere, it names the newest room to who joins, and to who comes
    /// back once the room is no longer among the rooms. Every other request is carried out by one
    /// call of the rooms: `join` and `back` may give a pass, `leave` hands it back, and the rest
    /// call the room by it.
    /// With `may_hold` it holds a `wait` in a room whose record has exactly the number of entries
    /// that the request names. It also holds a `join` or `back` of a room that is being opened.
    /// Without, a `wait` is a pull, and such a room is not served. A session that has asked for the
    /// notes of its room has its `wait` answered when one has changed since.
    /// The text may be sent once what it reports is kept. The session's own refusals report
    /// nothing.
    /// The scratch is memory for reading; nothing of an earlier message counts. Keep one between
    /// messages, because a new one costs as much as a short message.
    ///
    /// # Errors
    /// `NoMemory` if an allocation failed. The call of the rooms may stand, although no reply is
    /// sent.
    /// `Torn` if the pass belongs to other rooms; the session is unchanged.
    pub fn message<R: Wait, O: Observer, K: Keeper<P>>(
        &mut self,
        host: &Host<'_, P, R, O, K>,
        scratch: &mut Scratch,
        bytes: &[u8],
        may_hold: bool,
    ) -> Result<Option<Answer<Prefix<P>>>, MessageFault>
        ensures ok { IfOk result (λ found. IfSome found (λ answer. IsTextOfTurn
            (host_of P.limits host.now.rooms.now K.permits K.denies) self.old self.new bytes.now
            answer.reported (string_bytes answer.text))) }
        ensures held { result ≡ Ok None → (may_hold ≡ true) × (self.new ≡ self.old)
            × IsWait host.now.rooms.now self.old bytes.now }
        ensures err { OnErr result
            (MayStand (host_of P.limits host.now.rooms.now K.permits K.denies) self.old self.new
            bytes.now) }
        ensures torn { result ≡ Err message_fault.Torn → self.new ≡ self.old }
    {
        self.awaited = None;
        match self.reply_to(host, scratch, bytes, may_hold)? {
            Some(reply) => Ok(Some(reply.into_answer(host, self.room())?)),
            None => Ok(None),
        }
    }

    /// The reply to a message, or `None` if it is held. On `Err` nothing has changed.
    fn reply_to<R: Wait, O: Observer, K: Keeper<P>>(
        &mut self,
        host: &Host<'_, P, R, O, K>,
        scratch: &mut Scratch,
        bytes: &[u8],
        may_hold: bool,
    ) -> Result<Option<SessionReply<P>>, MessageFault>
        ensures ok { IfOk result (λ found. IfSome found (λ answer. IsTurn
            (host_of P.limits host.now.rooms.now K.permits K.denies) bytes.now
            (turn_of self.old self.new answer))) }
        ensures held { result ≡ Ok None → (may_hold ≡ true) × (self.new ≡ self.old)
            × IsWait host.now.rooms.now self.old bytes.now }
        ensures err { OnErr result (self.new ≡ self.old) }
    {
        match read_request(host.alloc, scratch, bytes) {
            Ok(request) => {
                if may_hold && (self.waits(host, &request) || self.awaits(host, &request)?) {
                    return Ok(None);
                }
                Ok(Some(self.ask(host, request)?))
            }
            Err(ReadFault::Bad) => Ok(Some(self.ask_notes(host, scratch, bytes)?)),
            Err(ReadFault::NoMemory) => Err(MessageFault::NoMemory),
        }
    }

    /// Answers bytes that may be a request about notes, and are no other one. On `Err` nothing has
    /// changed.
    fn ask_notes<R: Wait, O: Observer, K>(
        &mut self,
        host: &Host<'_, P, R, O, K>,
        scratch: &mut Scratch,
        bytes: &[u8],
    ) -> Result<SessionReply<P>, MessageFault>
        ensures ok { IfOk result (λ answer. IsNotesTurn P.limits bytes.now
            (turn_of self.old self.new answer)) }
        ensures scope { self.new.scope ≡ self.old.scope }
        ensures err { OnErr result (self.new ≡ self.old) }
    {
        let request = match read_note_request(host.alloc, scratch, bytes) {
            Ok(request) => request,
            Err(ReadFault::Bad) => return Ok(SessionReply::own_refusal(Refusal::BadMessage)),
            Err(ReadFault::NoMemory) => return Err(MessageFault::NoMemory),
        };
        match &mut self.inside {
            Some(inside) => {
                let (reply, heard) = note_by(host, &mut inside.pass, request)?;
                inside.heard_notes = Some(heard);
                Ok(reply)
            }
            None => Ok(SessionReply::own_refusal(Refusal::NotJoined)),
        }
    }

    /// Returns whether the request waits for the entry behind all that the room's record has, and
    /// there is no news of notes.
    fn waits<R: Wait, O, K>(&mut self, host: &Host<'_, P, R, O, K>, request: &Request) -> bool
        ensures wait { IsTrue result → IsWaitInRoom self.old.pass request.now }
        ensures same { self.new ≡ self.old }
    {
        let Request::Pull { from, waits: true } = request else {
            return false;
        };
        match &mut self.inside {
            Some(inside) => inside.waits_at(host, *from),
            None => false,
        }
    }

    /// Returns whether the request asks for a room that is being opened. The session then waits for
    /// news at its place.
    fn awaits<R: Wait, O: Observer, K: Keeper<P>>(
        &mut self,
        host: &Host<'_, P, R, O, K>,
        request: &Request,
    ) -> Result<bool, MessageFault>
        ensures yes { result ≡ Ok true → (self.old.pass ≡ None)
            × AsksToOpen host.now.rooms.now self.old.scope request.now }
        ensures same { self.new ≡ self.old }
    {
        let (Request::Join { room } | Request::Back { room, site: _ }) = request else {
            return Ok(false);
        };
        if self.inside.is_some() || !self.scope.allows(room) {
            return Ok(false);
        }
        // Who joins is sent on, so the room need not be opened.
        if let Request::Join { room } = request
            && self.later_room(host, room)?.is_some()
        {
            return Ok(false);
        }
        self.awaited = match host.rooms.opening_of(host.rt, room) {
            Lookup::Closed => place_to_wait(host, room)?,
            Lookup::Open(_) | Lookup::NoRoom => None,
        };
        Ok(self.awaited.is_some())
    }

    /// The answer to a request. On `Err` nothing has changed.
    fn ask<R: Wait, O: Observer, K: Keeper<P>>(
        &mut self,
        host: &Host<'_, P, R, O, K>,
        request: Request,
    ) -> Result<SessionReply<P>, MessageFault>
        ensures ok { IfOk result (λ answer. IsAnswer
            (host_of P.limits host.now.rooms.now K.permits K.denies) request
            (turn_of self.old self.new answer)) }
        ensures scope { self.new.scope ≡ self.old.scope }
        ensures err { OnErr result (self.new ≡ self.old) }
    {
        match request {
            Request::Join { room } => self.join(host, room),
            Request::Back { room, site } => self.back(host, room, site),
            Request::Leave => self.leave(host),
            request => self.call(host, request),
        }
    }

    /// Looks up the room of this name if the session may enter it, and has it opened if it is not
    /// open. `Closed` if it cannot be opened now. The scope is asked before the rooms are.
    fn look_up<R: Wait, O: Observer, K: Keeper<P>>(
        &self,
        host: &Host<'_, P, R, O, K>,
        name: &RoomName,
    ) -> Result<Lookup<P>, MessageFault>
        ensures open { IfOk result (IfOpen (λ opening.
            MayEnter self.now.scope host.now.rooms.now name.now
            × IsOpeningFor host.now.rooms.now name.now opening)) }
        ensures closed { result ≡ Ok lookup.Closed → (allows self.now.scope name.now ≡ true)
            × IsOnDemand host.now.rooms.now name.now }
        ensures no_room { result ≡ Ok lookup.NoRoom →
            ¬ (MayEnter self.now.scope host.now.rooms.now name.now) }
        ensures cause { IfErr result (λ why. why ≡ message_fault.NoMemory) }
    {
        if !self.scope.allows(name) {
            return Ok(Lookup::NoRoom);
        }
        match host.rooms.opening_of(host.rt, name) {
            Lookup::Closed => open_room(host, name),
            Lookup::Open(opening) => Ok(Lookup::Open(opening)),
            Lookup::NoRoom => Ok(Lookup::NoRoom),
        }
    }

    /// The newest room of the chain of the room of this name, if the session may enter that room
    /// and its chain goes on elsewhere.
    fn later_room<R: Wait, O: Observer, K: Keeper<P>>(
        &self,
        host: &Host<'_, P, R, O, K>,
        name: &RoomName,
    ) -> Result<Option<RoomName>, MessageFault>
        ensures later { IfOk result (λ found. IfSome found (λ later.
            IsLater name.now later × (allows self.now.scope name.now ≡ true))) }
        ensures cause { IfErr result (λ why. why ≡ message_fault.NoMemory) }
    {
        if !self.scope.allows(name) {
            return Ok(None);
        }
        Ok(host.keeper.newest(host.rt, host.alloc, name)?)
    }

    /// Joins the room of this name, unless the session is in a room. A room whose chain goes on
    /// elsewhere is not joined. What the keeper cannot keep is not begun.
    fn join<R: Wait, O: Observer, K: Keeper<P>>(
        &mut self,
        host: &Host<'_, P, R, O, K>,
        name: RoomName,
    ) -> Result<SessionReply<P>, MessageFault>
        ensures ok { IfOk result (λ answer. IsAnswer
            (host_of P.limits host.now.rooms.now K.permits K.denies) (Join name)
            (turn_of self.old self.new answer)) }
        ensures scope { self.new.scope ≡ self.old.scope }
        ensures err { OnErr result (self.new ≡ self.old) }
        ensures cause { IfErr result (λ why. why ≡ message_fault.NoMemory) }
    {
        if self.inside.is_some() {
            return Ok(SessionReply::own_refusal(Refusal::AlreadyJoined));
        }
        if let Some(later) = self.later_room(host, &name)? {
            return Ok(SessionReply::sent_on(later));
        }
        let found = self.look_up(host, &name)?;
        let opening = match found {
            Lookup::Open(opening) => opening,
            Lookup::Closed => return Ok(SessionReply::own_refusal(Refusal::NotServed)),
            Lookup::NoRoom => return Ok(SessionReply::own_refusal(Refusal::NoSuchRoom)),
        };
        if host.keeper.permit(host.rt, &opening).is_none() {
            return Ok(SessionReply::own_refusal(Refusal::NotServed));
        }
        let entrance = host.rooms.join(host.rt, host.alloc, &opening)?;
        Ok(self.enter(name, entrance))
    }

    /// Comes back as this site of the room of this name, unless the session is in a room. So a room
    /// that has ended is read on. If it is no longer among the rooms, the reply tells where its
    /// chain goes on.
    fn back<R: Wait, O: Observer, K: Keeper<P>>(
        &mut self,
        host: &Host<'_, P, R, O, K>,
        name: RoomName,
        site: u32,
    ) -> Result<SessionReply<P>, MessageFault>
        ensures ok { IfOk result (λ answer. IsAnswer
            (host_of P.limits host.now.rooms.now K.permits K.denies) (Back name site)
            (turn_of self.old self.new answer)) }
        ensures scope { self.new.scope ≡ self.old.scope }
        ensures err { OnErr result (self.new ≡ self.old) }
        ensures cause { IfErr result (λ why. why ≡ message_fault.NoMemory) }
    {
        if self.inside.is_some() {
            return Ok(SessionReply::own_refusal(Refusal::AlreadyJoined));
        }
        let found = self.look_up(host, &name)?;
        let opening = match found {
            Lookup::Open(opening) => opening,
            // The session may come back later, and then read how the room ended.
            Lookup::Closed => return Ok(SessionReply::own_refusal(Refusal::NotServed)),
            Lookup::NoRoom => {
                if let Some(later) = self.later_room(host, &name)? {
                    return Ok(SessionReply::sent_on(later));
                }
                return Ok(SessionReply::own_refusal(Refusal::NoSuchRoom));
            }
        };
        let entrance = host.rooms.back(host.rt, &opening, site);
        Ok(self.enter(name, entrance))
    }

    /// Hands the pass back, if the session has one. On `Err` the session keeps it.
    fn leave<R: Wait, O: Observer, K: Keeper<P>>(
        &mut self,
        host: &Host<'_, P, R, O, K>,
    ) -> Result<SessionReply<P>, MessageFault>
        ensures ok { IfOk result (λ answer. IsAnswer
            (host_of P.limits host.now.rooms.now K.permits K.denies) Leave
            (turn_of self.old self.new answer)) }
        ensures scope { self.new.scope ≡ self.old.scope }
        ensures err { OnErr result (self.new ≡ self.old) }
        ensures cause { IfErr result (λ why. why ≡ message_fault.Torn) }
        ensures other_rooms { MatchOption self.old.pass (Unit {0})
            (λ was. ¬ (MayBeOf host.now.rooms.now was.part.opening) →
            result ≡ Err message_fault.Torn) }
    {
        let Some(
            Inside {
                room,
                pass,
                heard_notes,
            },
        ) = self.inside.take()
        else {
            return Ok(SessionReply::own_refusal(Refusal::NotJoined));
        };
        match host.rooms.hand_back(host.rt, pass) {
            Ok((reported, reply)) => {
                if heard_notes.is_some() {
                    host.chime.strike(host.rt, reported.place());
                }
                Ok(SessionReply::of_room(reported, reply))
            }
            Err(pass) => {
                self.go_in(room, pass);
                Err(MessageFault::Torn)
            }
        }
    }

    /// Calls the room by the pass, if the session has one. On `Err` the pass is as it was.
    fn call<R: Wait, O: Observer, K>(
        &mut self,
        host: &Host<'_, P, R, O, K>,
        request: Request,
    ) -> Result<SessionReply<P>, MessageFault>
        ensures ok { IfOk result (λ answer.
            IsCallIf P.limits request (turn_of self.old self.new answer)) }
        ensures scope { self.new.scope ≡ self.old.scope }
        ensures err { OnErr result (self.new ≡ self.old) }
        ensures other_rooms { MatchOption self.old.pass (Unit {0})
            (λ was. ¬ (MayBeOf host.now.rooms.now was.part.opening) →
            result ≡ Err message_fault.Torn) }
    {
        match &mut self.inside {
            Some(inside) => call_by(host, &mut inside.pass, request),
            None => Ok(SessionReply::own_refusal(Refusal::NotJoined)),
        }
    }

    /// Takes the pass of who was let into the room of this name. Gives the answer to who asked to
    /// be let in.
    fn enter(&mut self, name: RoomName, entrance: Entrance<P>) -> SessionReply<P>
        requires outside { self.old.pass ≡ None }
        requires name { IfEntered (λ pass reply. pass.room ≡ name) entrance }
        ensures after { IsAfter entrance self.new.pass result.reported result.reply }
        ensures scope { self.new.scope ≡ self.old.scope }
    {
        match entrance {
            Entrance::Entered(pass, reply) => {
                let answer = SessionReply::of_room(pass.part().prefix(), reply);
                self.go_in(name, pass);
                answer
            }
            Entrance::Refused(reported, reply) => SessionReply::of_room(reported, reply),
            Entrance::InUse(in_use, reply) => SessionReply::of_room(in_use.into_prefix(), reply),
            Entrance::NoRoom => SessionReply::own_refusal(Refusal::NotServed),
        }
    }

    /// Puts the session into the room of the pass, which has this name.
    fn go_in(&mut self, room: RoomName, pass: Pass<P>)
        requires outside { self.old.pass ≡ None }
        requires name { room ≡ pass.room }
        ensures { self.new ≡ record self.old { pass = Some pass } }
    {
        let inside = Inside {
            room,
            pass,
            heard_notes: None,
        };
        match self.inside.replace(inside) {
            None => {}
            Some(_) => unreachable!(),
        }
    }
}

/// Asks the keeper for the room of this name, which is opened on demand. The observer hears of it
/// if this call opens the room.
///
/// # Errors
/// `NoMemory` if an allocation failed.
pub(crate) fn access_to<P: RoomHistories, R: Wait, O: Observer, K: Keeper<P>>(
    host: &Host<'_, P, R, O, K>,
    name: &RoomName,
) -> Result<Access<P>, NoMemory>
    requires { IsOnDemand host.now.rooms.now name.now }
    ensures new { IfOk result (IfNew (λ begun.
        IsOpeningFor host.now.rooms.now name.now begun.opening)) }
    ensures known { IfOk result (IfKnown (IsOpeningFor host.now.rooms.now name.now)) }
{
    let access = host.keeper.open(host.rt, host.alloc, host.rooms, name)?;
    if let Access::New(begun) = &access {
        host.observer.after_opening(begun.place());
    }
    Ok(access)
}

/// The place at which there will be news of the room of this name, which is opened on demand.
/// `None` if it is open by now, or cannot be opened now.
fn place_to_wait<P: RoomHistories, R: Wait, O: Observer, K: Keeper<P>>(
    host: &Host<'_, P, R, O, K>,
    name: &RoomName,
) -> Result<Option<usize>, NoMemory>
    requires { IsOnDemand host.now.rooms.now name.now }
{
    match access_to(host, name)? {
        Access::Later(place) => Ok(Some(place)),
        Access::New(_) | Access::Known(_) | Access::NotServed(_) => Ok(None),
    }
}

/// Has the room of this name opened on demand. `Closed` if it cannot be opened now.
fn open_room<P: RoomHistories, R: Wait, O: Observer, K: Keeper<P>>(
    host: &Host<'_, P, R, O, K>,
    name: &RoomName,
) -> Result<Lookup<P>, MessageFault>
    requires { IsOnDemand host.now.rooms.now name.now }
    ensures open { IfOk result (IfOpen (IsOpeningFor host.now.rooms.now name.now)) }
    ensures some { result ≢ Ok lookup.NoRoom }
    ensures cause { IfErr result (λ why. why ≡ message_fault.NoMemory) }
{
    let reason = match access_to(host, name)? {
        Access::New(begun) => return Ok(Lookup::Open(begun.opening().copy())),
        Access::Known(opening) => return Ok(Lookup::Open(opening)),
        Access::Later(_) => Reason::Late,
        Access::NotServed(reason) => reason,
    };
    host.observer.not_served(reason);
    Ok(Lookup::Closed)
}

/// Calls the room by this pass. On `Err` the pass is as it was.
fn call_by<P: RoomHistories, R: Wait, O, K>(
    host: &Host<'_, P, R, O, K>,
    pass: &mut Pass<P>,
    request: Request,
) -> Result<SessionReply<P>, MessageFault>
    ensures reply { IfOk result (λ answer.
        IsCall P.limits pass.old pass.new request answer.reply) }
    ensures reported { IfOk result (λ answer.
        answer.reported ≡ Some (prefix_of pass.new.part)) }
    ensures err { OnErr result (pass.new ≡ pass.old) }
    ensures other_rooms { ¬ (MayBeOf host.now.rooms.now pass.old.part.opening) →
        result ≡ Err message_fault.Torn }
{
    let reply = host.rooms.call(host.rt, host.alloc, pass, request)?;
    Ok(SessionReply::of_room(pass.part().prefix(), reply))
}

/// Carries out a request about notes by this pass, and strikes the chime if one has changed. Gives
/// what the session has heard of notes then. On `Err` the pass is as it was.
fn note_by<P: RoomHistories, R: Wait, O, K>(
    host: &Host<'_, P, R, O, K>,
    pass: &mut Pass<P>,
    request: NoteRequest,
) -> Result<(SessionReply<P>, Heard), MessageFault>
    ensures reply { IfOk result (λ noted.
        IsNotesCall P.limits pass.old pass.new request noted.0.reply) }
    ensures reported { IfOk result (λ noted.
        noted.0.reported ≡ Some (prefix_of pass.new.part)) }
    ensures err { OnErr result (pass.new ≡ pass.old) }
{
    let place = pass.place();
    let rings = host.chime.count_rings(place);
    let noted = host.rooms.note(host.rt, host.alloc, pass, request)?;
    let changes = noted.changes;
    if noted.is_change {
        host.chime.strike(host.rt, place);
    }
    let reply = SessionReply::of_room(pass.part().prefix(), noted.reply);
    Ok((reply, Heard { changes, rings }))
}
