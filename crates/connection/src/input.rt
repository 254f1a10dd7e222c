//! The bytes that came and that no frame has taken.

ghost use Rattle.std.specs.Prelude.{◌≡◌, ◌≤◌, ◌++◌, [], IfErr, IfOk, OnErr, OnOk, drop, length};
ghost use Rattle.websocket.specs.Connection.{failed_connection, read_step};
ghost use Rattle.websocket.specs.Content.{HasValidText, IsReceivedInside};
ghost use Rattle.websocket.specs.View.{GivesError, IfMessage, IfReceived, KeepsRest, ReadLeaves};
ghost use Rattle.websocket.specs.View.{Returns};

use std::alloc::{AllocError, Global};
use std::marker::Model;
use websocket::error::Error;
use websocket::protocol::{FrameStatus, NoMask, Step, WebSocketContext};

/// The bytes that came, from the place on up to which frames have taken them.
#[derive(Drop)]
pub(crate) struct Input {
    alloc: Global,
    bytes: Vec<u8>,
    taken: usize,
}

impl Model for Input {
    ghost use Rattle.std.specs.Prelude.{ℕ, List, ◌≤◌, drop, length};

    ghost Value = { List ℕ };

    ghost view = { λ i. drop i.taken i.bytes.items };

    ghost invariant = { λ i. i.taken ≤ length i.bytes.items };
}

impl Input {
    /// No bytes.
    pub(crate) fn new(alloc: Global) -> Input
        ensures { result ≡ [] }
    {
        Input {
            alloc,
            bytes: Vec::new(alloc),
            taken: 0,
        }
    }

    /// The bytes.
    pub(crate) fn bytes(&self) -> &[u8]
        ensures { result.now ≡ self.now }
    {
        &self.bytes[self.taken..]
    }

    /// Puts more bytes behind these.
    ///
    /// # Errors
    /// `AllocError` if an allocation failed. Nothing has changed.
    pub(crate) fn extend(&mut self, more: &[u8]) -> Result<(), AllocError>
        ensures ok { OnOk result (self.new ≡ self.old ++ more.now) }
        ensures err { OnErr result (self.new ≡ self.old) }
    {
        self.bytes.extend_from_slice(more)
    }

    /// Reads the frame at the front, and unmasks it in place.
    ///
    /// # Errors
    /// The protocol's error.
    pub(crate) fn read(
        &mut self,
        context: &mut WebSocketContext,
        reply: &mut Vec<u8>,
    ) -> Result<FrameStatus<Step>, Error>
        // The protocol's step, and what it leaves:
        ensures returns { IfOk result (Returns (read_step context.old self.old) self.new) }
        ensures leaves { OnOk result (ReadLeaves (read_step context.old self.old) context.old
            context.new reply.old.items reply.new.items) }
        // Of the bytes here:
        ensures len { length self.new ≡ length self.old }
        ensures keeps_rest { IfOk result (λ status. KeepsRest status self.old self.new) }
        ensures inside { IfOk result (λ status. IfMessage status (IsReceivedInside self.new)) }
        ensures valid_text { IfReceived result self.new HasValidText }
        // When it fails:
        ensures err { IfErr result (GivesError (read_step context.old self.old)) }
        ensures err_state { OnErr result (context.new ≡ failed_connection context.old) }
    {
        let taken = self.taken;
        let (_, bytes) = self.bytes.split_at_mut(taken);
        context.read(bytes, reply, &mut NoMask)
    }

    /// Drops so many bytes at the front.
    pub(crate) fn advance(&mut self, count: usize)
        requires { count ≤ length self.old }
        ensures { self.new ≡ drop count self.old }
    {
        self.taken += count;
    }

    /// Gives back the memory that the bytes do not need.
    pub(crate) fn give_back(&mut self)
        ensures { self.new ≡ self.old }
    {
        if self.taken == self.bytes.len() {
            self.bytes = Vec::new(self.alloc);
        } else {
            self.bytes.drain(..self.taken);
            self.bytes.shrink_to_fit();
        }
        self.taken = 0;
    }
}
