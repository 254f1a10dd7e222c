//! Why messages fail, and why sessions end.

ghost use Rattle.std.specs.Prelude.{◌≡◌};
ghost use Rattle.sessions.specs.steps.Causes.{end_of_keep_fault, end_of_message_fault};
ghost use Rattle.sessions.specs.declared.cause.MessageFault.TheVariants as message_fault;

use base_types::NoMemory;
use connection::End;
use keeper::KeepFault;
use loops::Ending;
use room_lock::CallFault;
use thiserror::Error;

/// Why a message of a session is not answered.
#[derive(Clone, Copy, Debug, PartialEq, Eq, Error)]
pub enum MessageFault {
    /// An allocation failed.
    #[error("out of memory")]
    NoMemory,
    /// The session's pass belongs to other rooms.
    #[error("torn from its room")]
    Torn,
}

impl From<NoMemory> for MessageFault {
    ghost from_gives = { λ _ gives. gives ≡ message_fault.NoMemory };

    fn from(_fault: NoMemory) -> MessageFault {
        MessageFault::NoMemory
    }
}

impl From<CallFault> for MessageFault {
    ghost use Rattle.sessions.specs.steps.Causes.{fault_of_call};

    ghost from_gives = { λ fault gives. gives ≡ fault_of_call fault };

    fn from(fault: CallFault) -> MessageFault {
        match fault {
            CallFault::Torn { place: _ } => MessageFault::Torn,
            CallFault::NoMemory => MessageFault::NoMemory,
        }
    }
}

/// The end of the connection for a message that is not answered.
pub(crate) fn end_of_message(fault: MessageFault) -> End
    ensures { result ≡ end_of_message_fault fault }
{
    match fault {
        MessageFault::NoMemory => End::NoMemory,
        MessageFault::Torn => End::Stray,
    }
}

/// The end of the connection for what is not kept.
pub(crate) fn end_of_keep(fault: KeepFault) -> End
    ensures { result ≡ end_of_keep_fault fault }
{
    match fault {
        KeepFault::NotKept => End::NotKept,
        KeepFault::NoMemory => End::NoMemory,
    }
}

/// Why a session ended.
#[derive(Clone, Copy, Debug, PartialEq, Eq, Error)]
pub enum Cause {
    /// The client closed the session, and the closing handshake was completed (RFC 6455, section
    /// 7).
    #[error("closed")]
    Closed,
    /// The stream did not begin with a whole opening handshake (RFC 6455, section 4). No message
    /// was read.
    #[error("handshake failed")]
    HandshakeFailed,
    /// The stream failed or ended, or it carried what RFC 6455 or the limits on length do not
    /// allow.
    #[error("stream fault")]
    StreamFault,
    /// An allocation failed.
    #[error("out of memory")]
    NoMemory,
    /// The session's pass belongs to other rooms.
    #[error("torn from its room")]
    Torn,
    /// What a reply would have reported of a room is not kept.
    #[error("record not kept")]
    NotKept,
}

impl Cause {
    ghost use Rattle.sessions.specs.steps.Causes.{cause_of_ending};

    /// The cause for the ending of a client's line.
    pub(crate) fn of_ending(ending: Ending) -> Cause
        ensures { result ≡ cause_of_ending ending }
    {
        match ending {
            Ending::NoHandshake => Cause::HandshakeFailed,
            Ending::Stream | Ending::Connection(End::Fault) => Cause::StreamFault,
            Ending::Connection(End::Closed) => Cause::Closed,
            Ending::Connection(End::NoMemory) => Cause::NoMemory,
            Ending::Connection(End::NotKept) => Cause::NotKept,
            Ending::Connection(End::Stray) => Cause::Torn,
        }
    }
}
