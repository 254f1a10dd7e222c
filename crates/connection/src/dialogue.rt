//! What is said with one client: the session, a message that is held, and the frames that wait.

ghost use Rattle.std.specs.Prelude.{ℕ, List, ◌≡◌, ◌≢◌, ◌≤◌, ◌⊎◌, ◌++◌, [], ◌∷◌, IfErr, IfOk, IfSome};
ghost use Rattle.std.specs.Prelude.{◌↔◌, IsSomeAnd, IsTrue, None, Ok, OnErr, OnOk, Some, drop, false, is_some};
ghost use Rattle.std.specs.Prelude.{length, min, option_map, string_bytes, true};
ghost use Rattle.websocket.specs.Connection.{Effect, Sends, read_step, write_step};
ghost use Rattle.websocket.specs.declared.protocol.frame.codec.FrameStatus.TheVariants.{Complete, Partial};
ghost use Rattle.websocket.specs.Content.{HasValidText, IsReceivedInside, message_content};
ghost use Rattle.websocket.specs.Content.{received_content, text};
ghost use Rattle.connection.specs.Receiving.{EndsAt, Run, Served, stopped};
ghost use Rattle.connection.specs.steps.States.{state_of};
ghost use Rattle.connection.specs.Releasing.{IsFirstLost, ReportsFirst, Released};
ghost use Rattle.connection.specs.Standing.{ConnectionState, waiting_len};
ghost use Rattle.connection.specs.declared.item.TheConstants.{MAX_LOAD, MAX_WAITING, MAX_WAITING_LEN};
ghost use Rattle.connection.specs.Serving.{Does, FailsAt, FailsHearing, FailsStep, Freed, Heard};
ghost use Rattle.connection.specs.Serving.{IsBlocked, IsPaused, Takes, data_of};
ghost use Rattle.connection.specs.Serving.{queued_reply, sent_text};
ghost use Rattle.connection.specs.declared.end.End.TheVariants as end;

use crate::end::{End, end_of_error};
use crate::input::Input;
use crate::item::{MAX_WAITING, MAX_WAITING_LEN};
use crate::talk::{Answer, MAX_HELD_LEN, Talk};
use crate::waiting::Waiting;
use std::alloc::Global;
use std::marker::Model;
use websocket::protocol::{FrameStatus, Message, NoMask, Step, WebSocketContext};

/// What a frame gave, and the bytes that it points into.
#[derive(Clone, Copy)]
struct Given<'a> {
    step: &'a Step,
    bytes: &'a [u8],
}

/// The session of a client, the message that is held, and the frames that wait, in order. It is no
/// `Drop`: `end` gives the session back.
pub(crate) struct Dialogue<S, D> {
    alloc: Global,
    session: S,
    held: Option<Vec<u8>>,
    waiting: Waiting<D>,
}

impl<S, D> Model for Dialogue<S, D> {
    ghost use Rattle.std.specs.Prelude.{option_map};
    ghost use Rattle.connection.specs.Standing.{Standing};

    ghost Value = { Standing S D };

    ghost view = { λ d. record {
      session = d.session;
      held = option_map (λ message. message.items) d.held;
      waiting = d.waiting;
    } };
}

impl<S, D: Drop> Dialogue<S, D> {
    /// Nothing is held, and nothing waits.
    pub(crate) fn new(alloc: Global, session: S) -> Dialogue<S, D>
        ensures { result ≡ record { session = session; held = None; waiting = [] } }
    {
        Dialogue {
            alloc,
            session,
            held: None,
            waiting: Waiting::new(alloc),
        }
    }

    /// The session.
    pub(crate) fn session(&self) -> &S
        ensures { result.now ≡ self.now.session }
    {
        &self.session
    }

    /// Returns whether a message is held.
    pub(crate) fn is_held(&self) -> bool
        ensures { result ≡ is_some self.now.held }
    {
        self.held.is_some()
    }

    /// Returns whether frames wait.
    pub(crate) fn has_waiting(&self) -> bool
        ensures some { result ≡ true → self.now.waiting ≢ [] }
        ensures none { result ≡ false → self.now.waiting ≡ [] }
    {
        self.waiting.count() > 0
    }

    /// Puts a reply of the protocol behind the frames that wait, if there is one.
    ///
    /// # Errors
    /// `NoMemory` if an allocation failed. Nothing has changed.
    pub(crate) fn push_reply(&mut self, frame: Vec<u8>) -> Result<(), End>
        ensures ok { OnOk result (self.new ≡ record self.old {
          waiting
              = self.old.waiting ++ queued_reply frame.items;
        }) }
        ensures err { OnErr result (self.new ≡ self.old) }
        ensures why { IfErr result (λ why. why ≡ end.NoMemory) }
    {
        self.waiting.push_reply(&frame)
    }

    /// Puts the frame of an answer's text behind the frames that wait.
    ///
    /// # Errors
    /// Why the frame cannot be made. Nothing has changed.
    fn send(&mut self, context: &mut WebSocketContext, answer: Answer<D>) -> Result<(), End>
        ensures ok { OnOk result ((frame : List ℕ)
            × Sends context.old.role (Some (sent_text (string_bytes answer.text))) [] frame
            × (self.new ≡ record self.old {
              waiting
                  = self.old.waiting ++ record { bytes = frame; reported = answer.reported } ∷ [];
            })) }
        ensures context { context.new ≡ context.old }
        ensures err { OnErr result (self.new ≡ self.old) }
        ensures why { IfErr result (FailsStep
            (write_step context.old (text (string_bytes answer.text)))) }
    {
        let Answer { text, reported } = answer;
        self.waiting.push_text(context, &text, reported)
    }

    /// Has the held message heard again, if there is one. With `may_hold` it may stay held;
    /// without, it is answered.
    ///
    /// # Errors
    /// Why the connection ends.
    pub(crate) fn answer_held<T: Talk<Session = S, Reported = D>>(
        &mut self,
        context: &mut WebSocketContext,
        talk: &T,
        scratch: &mut T::Scratch,
        may_hold: bool,
    ) -> Result<(), End>
        ensures ok { OnOk result (
            Freed (T.turn talk.now) context.old.role self.old.held self.old self.new
            ⊎ ((may_hold ≡ true) × IsSomeAnd self.old.held (T.waits talk.now self.old.session)
            × (self.new ≡ self.old))) }
        ensures err { IfErr result (λ why. IsSomeAnd self.old.held (λ message. FailsAt
            (T.turn talk.now) (T.fails talk.now) context.old message why self.old self.new)) }
        ensures context { context.new ≡ context.old }
    {
        let Some(message) = self.held.take() else {
            return Ok(());
        };
        match talk.hear(&mut self.session, scratch, &message, may_hold)? {
            Some(answer) => self.send(context, answer),
            None => {
                self.held = Some(message);
                Ok(())
            }
        }
    }

    /// Holds a message.
    ///
    /// # Errors
    /// `NoMemory` if an allocation failed. Nothing has changed.
    fn hold(&mut self, message: &[u8]) -> Result<(), End>
        ensures ok { OnOk result (self.new ≡ record self.old { held = Some message.now }) }
        ensures err { OnErr result (self.new ≡ self.old) }
        ensures why { IfErr result (λ why. why ≡ end.NoMemory) }
    {
        match Vec::from_slice(self.alloc, message) {
            Ok(held) => {
                self.held = Some(held);
                Ok(())
            }
            Err(_) => Err(End::NoMemory),
        }
    }

    /// Has a message answered or held. The message that was held is answered before it.
    ///
    /// # Errors
    /// Why the connection ends.
    fn hear<T: Talk<Session = S, Reported = D>>(
        &mut self,
        context: &mut WebSocketContext,
        talk: &T,
        scratch: &mut T::Scratch,
        message: &[u8],
    ) -> Result<(), End>
        ensures ok { OnOk result (Heard (T.turn talk.now) (T.waits talk.now)
            context.old.role message.now self.old self.new) }
        ensures err { IfErr result (λ why. FailsHearing (T.turn talk.now) (T.fails talk.now)
            context.old message.now why self.old self.new) }
        ensures context { context.new ≡ context.old }
    {
        self.answer_held(context, talk, scratch, false)?;
        let may_hold = message.len() <= MAX_HELD_LEN;
        match talk.hear(&mut self.session, scratch, message, may_hold) {
            Ok(Some(answer)) => self.send(context, answer),
            Ok(None) => self.hold(message),
            Err(end) => Err(end),
        }
    }

    /// Serves a message.
    ///
    /// # Errors
    /// Why the connection ends.
    fn take<T: Talk<Session = S, Reported = D>>(
        &mut self,
        context: &mut WebSocketContext,
        talk: &T,
        scratch: &mut T::Scratch,
        message: Message<'_>,
    ) -> Result<(), End>
        ensures ok { OnOk result (Takes (T.turn talk.now) (T.waits talk.now)
            (Some (message_content message.entry)) context.old.role self.old self.new) }
        ensures err { IfErr result (λ why. IsSomeAnd
            (data_of (Some (message_content message.entry))) (λ bytes. FailsHearing
            (T.turn talk.now) (T.fails talk.now) context.old bytes why self.old self.new)) }
        ensures context { context.new ≡ context.old }
    {
        match message {
            Message::Text(text) => self.hear(context, talk, scratch, text.as_bytes()),
            Message::Binary(bytes) => self.hear(context, talk, scratch, bytes),
            Message::Ping(_) | Message::Pong(_) => Ok(()),
            Message::Close(_) => {
                self.held = None;
                Ok(())
            }
        }
    }

    /// Serves what a frame gave.
    ///
    /// # Errors
    /// Why the connection ends.
    fn take_given<T: Talk<Session = S, Reported = D>>(
        &mut self,
        context: &mut WebSocketContext,
        talk: &T,
        scratch: &mut T::Scratch,
        given: &Given<'_>,
    ) -> Result<(), End>
        requires inside { IfSome given.now.step.now.message (IsReceivedInside given.now.bytes.now) }
        requires text { IfSome given.now.step.now.message (λ m.
            HasValidText (received_content given.now.bytes.now m)) }
        ensures ok { OnOk result (Takes (T.turn talk.now) (T.waits talk.now)
            (option_map (received_content given.now.bytes.now) given.now.step.now.message)
            context.old.role self.old self.new) }
        ensures err { IfErr result (λ why. IsSomeAnd (data_of
            (option_map (received_content given.now.bytes.now) given.now.step.now.message))
            (λ bytes. FailsHearing (T.turn talk.now) (T.fails talk.now) context.old bytes
            why self.old self.new)) }
        ensures context { context.new ≡ context.old }
    {
        match &given.step.message {
            Some(received) => self.take(context, talk, scratch, received.message(given.bytes)),
            None => Ok(()),
        }
    }

    /// Serves the frame at the front of the input. Returns false if no whole frame is there.
    ///
    /// # Errors
    /// Why the connection ends.
    pub(crate) fn serve_frame<T: Talk<Session = S, Reported = D>>(
        &mut self,
        context: &mut WebSocketContext,
        talk: &T,
        scratch: &mut T::Scratch,
        input: &mut Input,
    ) -> Result<bool, End>
        ensures served { result ≡ Ok true → (p : ℕ × Effect)
            × (read_step context.old input.old ≡ Ok (Complete p))
            × (context.new ≡ p.1.next) × (input.new ≡ drop p.0 input.old)
            × Does (T.turn talk.now) (T.waits talk.now) p.1 self.old self.new }
        ensures waits { result ≡ Ok false → ((needed : ℕ)
            × (read_step context.old input.old ≡ Ok (Partial needed)))
            × (context.new ≡ context.old) × (input.new ≡ input.old) × (self.new ≡ self.old) }
        ensures err { IfErr result (λ why. EndsAt (T.turn talk.now) (T.waits talk.now)
            (T.fails talk.now) (state_of context.old input.old self.old) why
            (stopped (state_of context.new input.new self.new) why)) }
    {
        let mut reply = Vec::new(self.alloc);
        let step = match input.read(context, &mut reply) {
            Ok(FrameStatus::Complete(step)) => step,
            Ok(FrameStatus::Partial(_)) => return Ok(false),
            Err(fault) => return Err(end_of_error(&fault)),
        };
        let taken = step.consumed;
        let given = Given {
            step: &step,
            bytes: input.bytes(),
        };
        self.take_given(context, talk, scratch, &given)?;
        self.push_reply(reply)?;
        input.advance(taken);
        Ok(true)
    }

    /// Serves the whole frames of the input in order, until no more may be served. Returns whether
    /// that is so.
    ///
    /// # Errors
    /// Why the connection ends.
    pub(crate) fn serve<T: Talk<Session = S, Reported = D>>(
        &mut self,
        context: &mut WebSocketContext,
        talk: &T,
        scratch: &mut T::Scratch,
        input: &mut Input,
    ) -> Result<bool, End>
        ensures ok { IfOk result (λ is_behind. ((frames : Run)
            × Served (T.turn talk.now) (T.waits talk.now) (T.blocks talk.now) frames
            (state_of context.old input.old self.old) (state_of context.new input.new self.new))
            × (is_behind ≡ true → IsPaused (T.blocks talk.now) self.new)
            × (is_behind ≡ false → (needed : ℕ)
            × (read_step context.new input.new ≡ Ok (Partial needed)))) }
        ensures err { IfErr result (λ why. (frames : Run) × (mid : ConnectionState S D)
            × Served (T.turn talk.now) (T.waits talk.now) (T.blocks talk.now) frames
            (state_of context.old input.old self.old) mid
            × EndsAt (T.turn talk.now) (T.waits talk.now) (T.fails talk.now) mid why
            (stopped (state_of context.new input.new self.new) why)) }
    {
        while !self.is_paused(talk) {
            match self.serve_frame(context, talk, scratch, input) {
                Ok(true) => {}
                Ok(false) => return Ok(false),
                Err(end) => return Err(end),
            }
        }
        Ok(true)
    }

    /// Moves the first frame that waits to the output, if what it reports is kept. Returns whether
    /// it did.
    ///
    /// # Errors
    /// Why the connection ends. Nothing has changed.
    pub(crate) fn release_first<T: Talk<Session = S, Reported = D>>(
        &mut self,
        talk: &T,
        output: &mut Vec<u8>,
    ) -> Result<bool, End>
        ensures moved { result ≡ Ok true → Released T.shows self.old self.new output.old.items
            output.new.items }
        ensures stays { result ≢ Ok true → (self.new ≡ self.old)
            × (output.new.items ≡ output.old.items) }
        ensures waits { result ≡ Ok false → ReportsFirst self.old.waiting }
        ensures err { IfErr result (λ why. (why ≡ end.NoMemory)
            ⊎ IsFirstLost T.lacks self.old.waiting why) }
    {
        self.waiting.release_first(talk, output)
    }

    /// How many bytes wait, and `most` where more do.
    pub(crate) fn waiting_len(&self, most: usize) -> usize
        requires { most ≤ MAX_LOAD }
        ensures { result ≡ min (waiting_len self.now.waiting) most }
    {
        self.waiting.len().min(most)
    }

    /// Returns whether so much waits that no frame is served.
    fn is_full(&self) -> bool
        ensures { IsTrue result ↔ (MAX_WAITING ≤ length self.now.waiting)
            ⊎ (MAX_WAITING_LEN ≤ waiting_len self.now.waiting) }
    {
        self.waiting.count() >= MAX_WAITING || self.waiting.len() >= MAX_WAITING_LEN
    }

    /// Returns whether a message is held that blocks: no later frame is served before it is
    /// answered.
    pub(crate) fn is_blocked<T: Talk<Session = S, Reported = D>>(&self, talk: &T) -> bool
        ensures { IsTrue result ↔ IsBlocked (T.blocks talk.now) self.now }
    {
        self.held.is_some() && talk.is_blocked(&self.session)
    }

    /// Returns whether no frame is served for now: too much waits, or the held message blocks.
    fn is_paused<T: Talk<Session = S, Reported = D>>(&self, talk: &T) -> bool
        ensures paused { result ≡ true → IsPaused (T.blocks talk.now) self.now }
        ensures serves { result ≡ false → ¬ (IsPaused (T.blocks talk.now) self.now) }
    {
        self.is_full() || self.is_blocked(talk)
    }

    /// Ends it, and gives the session back.
    pub(crate) fn end(self) -> S
        ensures { result ≡ self.session }
    {
        let Dialogue {
            alloc: _,
            session,
            held: _,
            waiting: _,
        } = self;
        session
    }
}
