//! Why a connection ends.

ghost use Rattle.std.specs.Prelude.{◌≡◌};
ghost use Rattle.connection.specs.Serving.{end_of_error};

use thiserror::Error;
use websocket::error::Error as ProtocolFault;

/// Why a connection ends.
#[derive(Clone, Copy, Debug, PartialEq, Eq, Error)]
pub enum End {
    /// The client closed it (RFC 6455, section 7).
    #[error("closed")]
    Closed,
    /// The client broke the protocol, or sent more than a message may have.
    #[error("protocol fault")]
    Fault,
    /// An allocation failed.
    #[error("out of memory")]
    NoMemory,
    /// What an answer reports will not be kept.
    #[error("not kept")]
    NotKept,
    /// The session belongs to another service.
    #[error("torn from its service")]
    Stray,
}

/// Why the connection ends at an error of the protocol.
pub(crate) fn end_of_error(fault: &ProtocolFault) -> End
    ensures { result ≡ end_of_error fault.now }
{
    match fault {
        ProtocolFault::ConnectionClosed => End::Closed,
        ProtocolFault::OutOfMemory => End::NoMemory,
        _ => End::Fault,
    }
}
