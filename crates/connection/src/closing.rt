//! Why a server closes a connection.

ghost use Rattle.std.specs.Prelude.{◌≡◌};
ghost use Rattle.connection.specs.Connections.{close_code_of};

use websocket::protocol::CloseCode;

/// Why a server closes a connection (RFC 6455, section 7.4.1).
#[derive(Clone, Copy, Debug, PartialEq, Eq)]
pub enum Closing {
    /// The server goes away: the code 1001.
    Away,
    /// The server is at fault: the code 1011.
    Fault,
}

/// The code of the close frame.
pub(crate) fn close_code_of(closing: Closing) -> CloseCode
    ensures { result ≡ close_code_of closing }
{
    match closing {
        Closing::Away => CloseCode::Away,
        Closing::Fault => CloseCode::Error,
    }
}
