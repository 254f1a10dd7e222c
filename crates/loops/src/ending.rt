//! Why connections end.

ghost use Rattle.std.specs.Prelude.{◌≡◌};
ghost use Rattle.loops.specs.steps.Endings.{ending_unopened, is_fault_of_server};

use connection::End;

/// Why a line ended.
#[derive(Clone, Copy, Debug, PartialEq, Eq)]
pub enum Ending {
    /// The client asked for no WebSocket, or its request was not whole in time.
    NoHandshake,
    /// The stream failed or ended, or the client was silent for too long.
    Stream,
    /// The connection ended by its own rules.
    Connection(End),
}

/// The ending of a session that has not begun: where the stream ends, there was no handshake.
pub(crate) fn unopened(ending: Ending) -> Ending
    ensures { result ≡ ending_unopened ending }
{
    match ending {
        Ending::Stream => Ending::NoHandshake,
        other => other,
    }
}

/// Returns whether a connection that ends so ends by a fault of the server.
pub(crate) fn is_server_fault(end: End) -> bool
    ensures { result ≡ is_fault_of_server end }
{
    match end {
        End::NoMemory | End::NotKept | End::Stray => true,
        End::Closed | End::Fault => false,
    }
}
