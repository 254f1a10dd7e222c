//! What answers the messages of a connection.

ghost use Rattle.std.specs.Prelude.{◌≡◌, ◌↔◌, IfErr, IfOk, IfSome, IsTrue, None, Ok, string_bytes, true};

use crate::end::End;

/// A longer message is never held.
pub const MAX_HELD_LEN: usize = 256;

/// The answer to a message: the text, and what it reports.
#[derive(Drop)]
pub struct Answer<D> {
    /// The text.
    pub text: String,
    /// What the text reports. The text may be sent once that is kept.
    pub reported: Option<D>,
}

/// Answers the messages of sessions. One value serves all connections; it is only read.
pub trait Talk {
    ghost use Rattle.std.specs.Prelude.{ℕ, List, Option};
    ghost use Rattle.connection.specs.declared.end.End.{End};

    /// What is known of one client.
    type Session;

    /// What an answer reports.
    type Reported: Drop;

    /// The proof at run time that something is kept.
    type Receipt: Drop;

    /// Memory for reading. Nothing of an earlier message counts.
    type Scratch;

    /// One message is answered: the session before and after it, its bytes, the bytes of the
    /// answer's text, and what the text reports.
    ghost turn: { Self → Self.Session → Self.Session → List ℕ → List ℕ → Option Self.Reported → Type 0 };

    /// This message of the session may be held.
    ghost waits: { Self → Self.Session → List ℕ → Type 0 };

    /// While a message of this session is held, no later frame is served.
    ghost blocks: { Self → Self.Session → Type 0 };

    /// The session may stand so after a message at which the connection ends.
    ghost fails: { Self → Self.Session → Self.Session → List ℕ → End → Type 0 };

    /// The receipt shows that this is kept.
    ghost shows: { Self.Receipt → Self.Reported → Type 0 };

    /// This may be why something is not kept.
    ghost lacks: { Self.Reported → End → Type 0 };

    /// Answers a message. `Ok(None)` if it may wait, which is never without `may_hold`; then
    /// nothing has changed.
    ///
    /// # Errors
    /// Why the connection ends.
    fn hear(
        &self,
        session: &mut Self::Session,
        scratch: &mut Self::Scratch,
        bytes: &[u8],
        may_hold: bool,
    ) -> Result<Option<Answer<Self::Reported>>, End>
        ensures answered { IfOk result (λ found. IfSome found (λ answer. Self.turn self.now
            session.old session.new bytes.now (string_bytes answer.text) answer.reported)) }
        ensures held { result ≡ Ok None → (may_hold ≡ true) × (session.new ≡ session.old)
            × Self.waits self.now session.old bytes.now }
        ensures failed { IfErr result (λ end. Self.fails self.now session.old session.new
            bytes.now end) };

    /// Returns whether no later frame is served while a message of this session is held.
    fn is_blocked(&self, session: &Self::Session) -> bool
        ensures { IsTrue result ↔ Self.blocks self.now session.now };

    /// The receipt, if this is kept already. Does not wait.
    ///
    /// # Errors
    /// Why it will not be kept.
    fn receipt(&self, reported: &Self::Reported) -> Result<Option<Self::Receipt>, End>
        ensures found { IfOk result (λ found. IfSome found (λ receipt.
            Self.shows receipt reported.now)) }
        ensures failed { IfErr result (λ end. Self.lacks reported.now end) };
}
