//! The reply to a message, before it is text.

ghost use Rattle.std.specs.Prelude.{ℕ, ◌≡◌, ◌≢◌, IfOk, IfSome, IsNone, None, Some, string_bytes};
ghost use Rattle.rules.specs.declared.refusal.Refusal.{Refusal};
ghost use Rattle.wire.specs.declared.reply.Reply.TheVariants.{No, Renewed};
ghost use Rattle.wire.specs.Texts.{reply_text};

use crate::host::Host;
use crate::observer::Observer;
use base_types::{NoMemory, RoomName};
use connection::Answer;
use room_lock::{Prefix, RoomHistories};
use std::sync::Wait;
use wire::{Refusal, Reply, write_reply};

/// A reply, and the prefix of a room's record that it reports on, if it reports on a room.
#[derive(Drop)]
pub(crate) struct SessionReply<P: RoomHistories> {
    pub(crate) reply: Reply,
    pub(crate) reported: Option<Prefix<P>>,
}

impl<P: RoomHistories> SessionReply<P> {
    /// The reply of a room whose record was `reported` at that time.
    pub(crate) fn of_room(reported: Prefix<P>, reply: Reply) -> SessionReply<P>
        ensures reply { result.reply ≡ reply }
        ensures reported { result.reported ≡ Some reported }
    {
        SessionReply {
            reply,
            reported: Some(reported),
        }
    }

    /// A refusal by the session itself.
    pub(crate) fn own_refusal(refusal: Refusal) -> SessionReply<P>
        ensures reply { result.reply ≡ No 0 refusal }
        ensures reported { result.reported ≡ None }
    {
        SessionReply {
            reply: Reply::No { at: 0, refusal },
            reported: None,
        }
    }

    /// The session itself tells of a later room of the chain.
    pub(crate) fn sent_on(room: RoomName) -> SessionReply<P>
        ensures reply { result.reply ≡ Renewed 0 room }
        ensures reported { result.reported ≡ None }
    {
        SessionReply {
            reply: Reply::Renewed { at: 0, room },
            reported: None,
        }
    }

    /// The observer hears of the reply, and of the entry that the room has added with it, if there
    /// is one. The loops in which sessions wait for that entry are woken. The session is in this
    /// room.
    fn tell<R: Wait, O: Observer, K>(&self, host: &Host<'_, P, R, O, K>, room: Option<&RoomName>) {
        let place = match &self.reported {
            Some(reported) => Some(reported.place()),
            None => None,
        };
        host.observer.after_reply(place, refusal_of(&self.reply));
        if let Some(place) = place
            && let Some(kind) = self.reply.entry_kind()
        {
            if let Some(room) = room {
                host.observer.after_entry(room, place, kind);
            }
            host.bell.ring(host.rt, place);
        }
    }

    /// The text of the reply to a session in this room, with what it reports. Its entry is reported
    /// first, since it stands whatever follows.
    ///
    /// # Errors
    /// `NoMemory` if an allocation failed.
    pub(crate) fn into_answer<R: Wait, O: Observer, K>(
        self,
        host: &Host<'_, P, R, O, K>,
        room: Option<&RoomName>,
    ) -> Result<Answer<Prefix<P>>, NoMemory>
        ensures text { IfOk result (λ answer.
            string_bytes answer.text ≡ reply_text self.reply) }
        ensures reported { IfOk result (λ answer. answer.reported ≡ self.reported) }
    {
        self.tell(host, room);
        let text = write_reply(host.alloc, &self.reply)?;
        let SessionReply { reply: _, reported } = self;
        Ok(Answer { text, reported })
    }
}

/// The refusal, if the reply is one.
fn refusal_of(reply: &Reply) -> Option<Refusal>
    ensures some { IfSome result (λ refusal. (at : ℕ) × (reply.now ≡ No at refusal)) }
    ensures none { IsNone result → (at : ℕ) (refusal : Refusal) → reply.now ≢ No at refusal }
{
    match reply {
        Reply::No { at: _, refusal } => Some(*refusal),
        _ => None,
    }
}
