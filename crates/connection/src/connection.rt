//! A connection after its handshake: bytes in, frames out.

ghost use Rattle.std.specs.Prelude.{◌≡◌, ◌≢◌, ◌⊎◌, [], IfErr, None, OnErr, OnOk, Ok, Err, Some};
ghost use Rattle.std.specs.Prelude.{◌+◌, ◌↔◌, IsTrue, false, is_some, length, min, true, unwrap_or};
ghost use Rattle.connection.specs.Standing.{waiting_len};
ghost use Rattle.connection.specs.declared.item.TheConstants.{MAX_LOAD};
ghost use Rattle.connection.specs.Serving.{IsBlocked};
ghost use Rattle.connection.specs.Connections.{AnswersHeld, Closes, FailsAnsweringHeld, Receives};
ghost use Rattle.connection.specs.Connections.{StopsReceiving, opened};
ghost use Rattle.connection.specs.Receiving.{stopped};
ghost use Rattle.connection.specs.Releasing.{IsFirstLost, ReportsFirst, Released};
ghost use Rattle.connection.specs.declared.end.End.{End};
ghost use Rattle.connection.specs.declared.end.End.TheVariants as end;

use crate::closing::{Closing, close_code_of};
use crate::dialogue::Dialogue;
use crate::end::End;
use crate::input::Input;
use crate::item::MAX_LOAD;
use crate::talk::Talk;
use std::alloc::Global;
use std::marker::Model;
use websocket::protocol::{CloseFrame, NoMask, Role, WebSocketConfig, WebSocketContext};

/// The most bytes of a message and of a frame. A longer one ends the connection before memory is
/// allocated for it.
pub const MAX_MESSAGE_LEN: usize = 262_144;

/// A connection: the state of the protocol, the bytes that no frame has taken, the session, a
/// message that is held, and the frames that wait, in order. It is no `Drop`: `end` gives the
/// session back.
pub struct Connection<S, D> {
    alloc: Global,
    context: WebSocketContext,
    input: Input,
    dialogue: Dialogue<S, D>,
    ended: Option<End>,
    is_behind: bool,
}

impl<S, D> Model for Connection<S, D> {
    ghost use Rattle.connection.specs.Standing.{ConnectionState};

    ghost Value = { ConnectionState S D };

    ghost view = { λ c. record {
      protocol = c.context;
      input = c.input;
      standing = c.dialogue;
      ended = c.ended;
      is_behind = c.is_behind;
    } };
}

impl<S, D: Drop> Connection<S, D> {
    /// A connection of a server, right after its handshake's response. Nothing waits, and no byte
    /// came.
    pub fn open(alloc: Global, session: S) -> Connection<S, D>
        ensures { result ≡ opened session }
    {
        let config = WebSocketConfig::default()
            .max_message_size(Some(MAX_MESSAGE_LEN))
            .max_frame_size(Some(MAX_MESSAGE_LEN));
        Connection {
            alloc,
            context: WebSocketContext::new(alloc, Role::Server, config),
            input: Input::new(alloc),
            dialogue: Dialogue::new(alloc, session),
            ended: None,
            is_behind: false,
        }
    }

    /// The session.
    pub fn session(&self) -> &S
        ensures { result.now ≡ self.now.standing.session }
    {
        self.dialogue.session()
    }

    /// Returns whether a message is held.
    pub fn is_held(&self) -> bool
        ensures { result ≡ is_some self.now.standing.held }
    {
        self.dialogue.is_held()
    }

    /// Returns whether a message is held that blocks: no later frame is served before it is
    /// answered.
    pub fn is_blocked<T: Talk<Session = S, Reported = D>>(&self, talk: &T) -> bool
        ensures { IsTrue result ↔ IsBlocked (T.blocks talk.now) self.now.standing }
    {
        self.dialogue.is_blocked(talk)
    }

    /// Returns whether frames wait for their release.
    pub fn has_waiting(&self) -> bool
        ensures some { result ≡ true → self.now.standing.waiting ≢ [] }
        ensures none { result ≡ false → self.now.standing.waiting ≡ [] }
    {
        self.dialogue.has_waiting()
    }

    /// Returns whether bytes that came may hold whole frames that were not served, since too much
    /// waited or a held message blocked. `receive` with no bytes goes on.
    pub fn is_behind(&self) -> bool
        ensures { result ≡ self.now.is_behind }
    {
        self.is_behind
    }

    /// How many bytes it holds: those that no frame has taken, and those of the frames that wait.
    /// `MAX_LOAD` where it holds more.
    pub fn load(&self) -> usize
        ensures { result ≡ min (length self.now.input + waiting_len self.now.standing.waiting)
            MAX_LOAD }
    {
        let waiting = self.dialogue.waiting_len(MAX_LOAD);
        self.input
            .bytes()
            .len()
            .saturating_add(waiting)
            .min(MAX_LOAD)
    }

    /// Serves the whole frames among the bytes that came, in order, until `MAX_WAITING` frames or
    /// `MAX_WAITING_LEN` bytes wait, or a message is held that blocks. The talk answers each text
    /// and each binary message by one turn, or may hold one of at most `MAX_HELD_LEN` bytes; the
    /// next message has that one answered first. The frames of the answers and the replies of the
    /// protocol wait in this order behind those that waited. A close drops the message that is
    /// held.
    ///
    /// # Errors
    /// Why the connection ends. What was answered before waits still. The connection then serves no
    /// more, and gives the same error again.
    pub fn receive<T: Talk<Session = S, Reported = D>>(
        &mut self,
        talk: &T,
        scratch: &mut T::Scratch,
        bytes: &[u8],
    ) -> Result<(), End>
        ensures ended { (why : End) → self.old.ended ≡ Some why →
            (result ≡ Err why) × (self.new ≡ self.old) }
        ensures ok { self.old.ended ≡ None → OnOk result (Receives (T.turn talk.now)
            (T.waits talk.now) (T.blocks talk.now) self.old bytes.now self.new) }
        ensures err { self.old.ended ≡ None → IfErr result (λ why. StopsReceiving
            (T.turn talk.now) (T.waits talk.now) (T.blocks talk.now) (T.fails talk.now) self.old bytes.now
            why self.new) }
    {
        if let Some(end) = self.ended {
            return Err(end);
        }
        if self.input.extend(bytes).is_err() {
            self.stop(End::NoMemory);
            return Err(End::NoMemory);
        }
        match self
            .dialogue
            .serve(&mut self.context, talk, scratch, &mut self.input)
        {
            Ok(is_behind) => {
                self.input.give_back();
                self.is_behind = is_behind;
                Ok(())
            }
            Err(end) => {
                self.stop(end);
                Err(end)
            }
        }
    }

    /// Has the held message heard again, if there is one. With `may_hold` it may stay held;
    /// without, it is answered.
    ///
    /// # Errors
    /// Why the connection ends. It then serves no more, and gives the same error again.
    pub fn answer_held<T: Talk<Session = S, Reported = D>>(
        &mut self,
        talk: &T,
        scratch: &mut T::Scratch,
        may_hold: bool,
    ) -> Result<(), End>
        ensures ended { (why : End) → self.old.ended ≡ Some why →
            (result ≡ Err why) × (self.new ≡ self.old) }
        ensures ok { self.old.ended ≡ None → OnOk result (AnswersHeld (T.turn talk.now)
            (T.waits talk.now) may_hold self.old self.new) }
        ensures err { self.old.ended ≡ None → IfErr result (λ why. FailsAnsweringHeld
            (T.turn talk.now) (T.fails talk.now) self.old why self.new) }
    {
        if let Some(end) = self.ended {
            return Err(end);
        }
        match self
            .dialogue
            .answer_held(&mut self.context, talk, scratch, may_hold)
        {
            Ok(()) => Ok(()),
            Err(end) => {
                self.stop(end);
                Err(end)
            }
        }
    }

    /// Serves no more from now on.
    fn stop(&mut self, end: End)
        ensures { self.new ≡ record self.old { input = []; ended = Some end; is_behind = false } }
    {
        self.input = Input::new(self.alloc);
        self.ended = Some(end);
        self.is_behind = false;
    }

    /// Moves the first frame that waits to the output, if what it reports is kept. Returns whether
    /// it did: false if none waits, or what it reports is not kept yet.
    ///
    /// # Errors
    /// `NoMemory` if an allocation failed, and else why what it reports will not be kept. The frame
    /// waits still.
    pub fn release_first<T: Talk<Session = S, Reported = D>>(
        &mut self,
        talk: &T,
        output: &mut Vec<u8>,
    ) -> Result<bool, End>
        ensures moved { result ≡ Ok true → Released T.shows self.old.standing self.new.standing
            output.old.items output.new.items }
        ensures stays { result ≢ Ok true → (self.new.standing ≡ self.old.standing)
            × (output.new.items ≡ output.old.items) }
        ensures waits { result ≡ Ok false → ReportsFirst self.old.standing.waiting }
        ensures err { IfErr result (λ why. (why ≡ end.NoMemory)
            ⊎ IsFirstLost T.lacks self.old.standing.waiting why) }
        ensures others { self.new ≡ record self.old { standing = self.new.standing } }
    {
        self.dialogue.release_first(talk, output)
    }

    /// Puts a close frame with the code that says why behind the frames that wait, unless a close
    /// was sent or read. The connection then serves no more, also after an error: `receive` gives
    /// the error that it gave before, or `Closed`.
    ///
    /// # Errors
    /// `NoMemory` if an allocation failed. What waits is unchanged.
    pub fn close(&mut self, closing: Closing) -> Result<(), End>
        ensures ok { OnOk result (Closes closing self.old self.new) }
        ensures err { OnErr result (self.new ≡ record (stopped self.old
            (unwrap_or self.old.ended end.Closed)) { protocol = self.new.protocol }) }
        ensures why { IfErr result (λ why. why ≡ end.NoMemory) }
    {
        self.stop(self.ended.unwrap_or(End::Closed));
        let mut frame = Vec::new(self.alloc);
        let close = CloseFrame {
            code: close_code_of(closing),
            reason: "",
        };
        match self.context.close(Some(close), &mut frame, &mut NoMask) {
            Ok(()) => self.dialogue.push_reply(frame),
            Err(_) => Err(End::NoMemory),
        }
    }

    /// Ends the connection, and gives the session back. What waits is dropped.
    pub fn end(self) -> S
        ensures { result ≡ self.standing.session }
    {
        let Connection {
            alloc: _,
            context: _,
            input: _,
            dialogue,
            ended: _,
            is_behind: _,
        } = self;
        dialogue.end()
    }
}
