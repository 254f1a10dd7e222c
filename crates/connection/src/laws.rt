//! Laws of the definitions. These functions have no effect at run time.

ghost use Rattle.std.specs.Prelude.{ℕ, List, ◌≡◌, ◌++◌, ◌+◌, ◌≤◌, length};
ghost use Rattle.connection.specs.declared.item.TheConstants.{MAX_WAITING};
ghost use Rattle.connection.specs.Standing.{ConnectionState};
ghost use Rattle.connection.specs.Connections.{Receives};
ghost use Rattle.connection.specs.Serving.{IsBlocked};
ghost use Rattle.connection.specs.Histories.{AnsweredInOrder, HasNoClose, messages};

use crate::talk::Talk;

/// Bytes may come in any pieces: to receive two pieces one after the other is to receive them at
/// once.
#[tactic(auto, using(crate::proofs::Pieces::both))]
pub fn bytes_come_in_any_pieces<T: Talk>()
    ensures { (talk : T) (before mid after : ConnectionState T.Session T.Reported)
        (first second : List ℕ) →
        Receives (T.turn talk) (T.waits talk) (T.blocks talk) before first mid →
        Receives (T.turn talk) (T.waits talk) (T.blocks talk) mid second after →
        Receives (T.turn talk) (T.waits talk) (T.blocks talk) before (first ++ second) after }
{}

/// Each message is answered once, in order: over the frames of bytes that came, if none is a close,
/// the messages are those that were answered, by one turn of the session each, and at most one that
/// is held.
pub fn messages_are_answered_in_order<T: Talk>()
    ensures { (talk : T) (before after : ConnectionState T.Session T.Reported) (bytes : List ℕ)
        (r : Receives (T.turn talk) (T.waits talk) (T.blocks talk) before bytes after) →
        HasNoClose r.frames →
        AnsweredInOrder (T.turn talk) (messages r.frames) before.standing after.standing }
{}

/// While a message is held that blocks, nothing is served: the bytes that come are kept for later.
pub fn blocked_session_is_not_served<T: Talk>()
    ensures { (talk : T) (before after : ConnectionState T.Session T.Reported) (bytes : List ℕ) →
        Receives (T.turn talk) (T.waits talk) (T.blocks talk) before bytes after →
        IsBlocked (T.blocks talk) before.standing →
        (after.standing ≡ before.standing) × (after.input ≡ before.input ++ bytes) }
{}

/// No more than `MAX_WAITING + 2` frames wait, whatever comes: the last frame that is served can
/// add the answer of a held message, that of its own, and a reply of the protocol.
pub fn few_frames_wait<T: Talk>()
    ensures { (talk : T) (before after : ConnectionState T.Session T.Reported) (bytes : List ℕ) →
        Receives (T.turn talk) (T.waits talk) (T.blocks talk) before bytes after →
        length before.standing.waiting ≤ MAX_WAITING + 2 →
        length after.standing.waiting ≤ MAX_WAITING + 2 }
{}
