//! What loops serve.

ghost use Rattle.std.specs.Prelude.{IfSome};

use crate::client::Client;
use crate::ending::Ending;
use connection::Talk;

/// When a client is let in.
#[derive(Clone, Copy, Debug, PartialEq, Eq)]
pub enum Admission {
    /// Now.
    Now,
    /// Once there is news at this place. The service is then asked again.
    Later(usize),
    /// Not at all: what the request names cannot be served now.
    NotServed,
}

/// What loops serve: a talk, and what it wants to hear of connections. All loops share one value,
/// and call it in their threads. A method may block its thread for a short time only.
pub trait Service: Talk {
    ghost use Rattle.std.specs.Prelude.{ℕ, List};

    /// A session that begins with a request for this target.
    ghost begins: { Self → List ℕ → Self.Session → Type 0 };

    /// When a client is let in whose request has this target (RFC 9112, section 3.2). A client that
    /// waits takes no seat, and nothing is read from it.
    fn admission(&self, _target: &[u8]) -> Admission {
        Admission::Now
    }

    /// The session of a new connection, whose request had this target (RFC 9112, section 3.2).
    /// `None` if an allocation failed.
    fn new_session(&self, target: &[u8]) -> Option<Self::Session>
        ensures { IfSome result (λ session. Self.begins self.now target.now session) };

    /// Memory that a loop lends to each message that is heard.
    fn new_scratch(&self) -> Self::Scratch;

    /// The place at which there is news for the session, from 0: that of the room that it is in, or
    /// else the one at which its held message waits.
    fn place(&self, session: &Self::Session) -> Option<usize>;

    /// A connection is no probe: a session begins.
    fn before_session(&self);

    /// A connection was a probe, and has been answered.
    fn after_probe(&self);

    /// A client was turned away by 503: all seats are taken.
    fn turned_away(&self);

    /// A client was turned away by 503: what its request names cannot be served now.
    fn not_served(&self) {}

    /// The session has ended, and is given back. `None` if there was no handshake.
    fn after_session(&self, client: &Client, session: Option<Self::Session>, ending: Ending);

    /// A room whose file fails.
    fn failing_room(&self) -> Option<String>;

    /// What was counted, in Prometheus' text format. `None` if nothing is, or an allocation failed.
    fn metrics(&self) -> Option<String>;
}
