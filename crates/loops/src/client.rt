//! The clients that are served.

use std::fmt;
use std::fmt::{Display, Formatter};
use std::net::{SocketAddr, TcpStream};

/// A connection that is to be served, with its remote address if that is known.
#[derive(Drop)]
pub struct Arrival {
    /// The connection.
    pub stream: TcpStream,
    /// The remote address, if it is known.
    pub address: Option<SocketAddr>,
}

/// The client of a session: the session's number, and the remote address if that is known. It is
/// displayed as `session 3 127.0.0.1:5000`.
#[derive(Clone, Copy)]
pub struct Client {
    /// The number of the session, from 1.
    pub session: u64,
    /// The remote address, if it is known.
    pub address: Option<SocketAddr>,
}

impl Display for Client {
    fn fmt<W: fmt::Write>(&self, f: &mut Formatter<W>) -> fmt::Result {
        let session = self.session;
        match &self.address {
            Some(address) => write!(f, "session {session} {address}"),
            None => write!(f, "session {session}"),
        }
    }
}
