//! What waits to be sent on a line.

ghost use Rattle.std.specs.Prelude.{◌≡◌, ◌≢◌, ◌≤◌, [], ◌++◌, Ok, OnErr, OnOk, length, true};
ghost use Rattle.connection.specs.Releasing.{Released};

use connection::{Connection, End, Talk};
use std::alloc::{AllocError, Global};
use std::io;
use std::io::Write;
use std::marker::Model;

/// The bytes that wait to be sent, in order. Contracts see them as a list.
#[derive(Drop)]
pub(crate) struct Output {
    alloc: Global,
    bytes: Vec<u8>,
    /// How many of these bytes were sent.
    sent: usize,
}

impl Model for Output {
    ghost use Rattle.std.specs.Prelude.{ℕ, List, drop, vec_len, ◌≤◌};

    ghost Value = { List ℕ };

    ghost view = { λ output. drop output.sent output.bytes.items };

    ghost invariant = { λ output. output.sent ≤ vec_len output.bytes };
}

impl Output {
    ghost use Rattle.loops.specs.steps.Sending.{Sends};

    /// No bytes.
    pub(crate) fn new(alloc: Global) -> Output
        ensures { result ≡ [] }
    {
        Output {
            alloc,
            bytes: Vec::new(alloc),
            sent: 0,
        }
    }

    /// How many bytes wait.
    pub(crate) fn len(&self) -> usize
        ensures { result ≡ length self.now }
    {
        self.bytes.len() - self.sent
    }

    /// How many bytes of memory it takes: also for those that were sent, until all are.
    pub(crate) fn memory(&self) -> usize
        ensures { length self.now ≤ result }
    {
        self.bytes.capacity()
    }

    /// Puts these bytes behind those that wait.
    ///
    /// # Errors
    /// `AllocError` if an allocation failed. Then nothing has changed.
    pub(crate) fn append(&mut self, bytes: &[u8]) -> Result<(), AllocError>
        ensures ok { OnOk result (self.new ≡ self.old ++ bytes.now) }
        ensures err { OnErr result (self.new ≡ self.old) }
    {
        self.bytes.extend_from_slice(bytes)
    }

    /// Sends bytes that wait, as many as the stream takes at once. Returns how many it took.
    ///
    /// # Errors
    /// What the stream answered. Then nothing has changed.
    pub(crate) fn send<W: Write>(&mut self, stream: &mut W) -> io::Result<usize>
        ensures ok { Sends (W.contents stream.old) (W.contents stream.new) self.old self.new
            result }
    {
        let count = stream.write(&self.bytes[self.sent..])?;
        self.sent += count;
        if self.sent == self.bytes.len() {
            self.bytes = Vec::new(self.alloc);
            self.sent = 0;
        }
        Ok(count)
    }

    /// Moves the first frame that waits in the connection behind these bytes, if what it reports is
    /// kept. Returns whether it did.
    ///
    /// # Errors
    /// Why the connection ends. Then nothing has changed.
    pub(crate) fn release<S, D: Drop, T: Talk<Session = S, Reported = D>>(
        &mut self,
        connection: &mut Connection<S, D>,
        talk: &T,
    ) -> Result<bool, End>
        ensures moved { result ≡ Ok true → Released T.shows connection.old.standing
            connection.new.standing self.old self.new }
        ensures stays { result ≢ Ok true → (connection.new.standing ≡ connection.old.standing)
            × (self.new ≡ self.old) }
        ensures others { connection.new
            ≡ record connection.old { standing = connection.new.standing } }
    {
        self.forget_sent();
        connection.release_first(talk, &mut self.bytes)
    }

    /// Forgets the bytes that were sent.
    fn forget_sent(&mut self)
        ensures { self.new ≡ self.old }
    {
        self.bytes.drain(..self.sent);
        self.sent = 0;
    }
}
