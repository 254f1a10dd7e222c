//! A session with a server, as who watches a room needs it.

use crate::fault::WatchFault;
use base_types::RoomName;
use byte_streams::Uninterrupted;
use command_fault::Fault;
use std::alloc::Global;
use std::io::{Read, Write};
use std::net::{Net, OpenStream, TcpStream};
use std::random::RandomSource;
use tungstenite::handshake::client::request_of;
use tungstenite::{
    CloseCode, CloseFrame, Error, HandshakeError, MaskKeys, Message, RandomKeys, Utf8Bytes,
    WebSocket, client,
};
use wire::{Reply, Request, write_request};
use wire_reader::read_reply;

/// The most messages without text that are skipped while a reply is awaited.
const MAX_PASSED_OVER: u32 = 1_000_000;

/// A session in which one request is answered after the other.
pub(crate) trait Asks {
    /// Sends a request, and returns the text of the reply.
    ///
    /// # Errors
    /// `Session` if the stream failed, or too many messages have no text.
    /// `NoMemory` if an allocation failed.
    fn ask(&mut self, alloc: Global, request: &Request) -> Result<Utf8Bytes, WatchFault>;
}

impl<S: Read + Write + Drop, K: MaskKeys + Drop> Asks for WebSocket<S, K> {
    fn ask(&mut self, alloc: Global, request: &Request) -> Result<Utf8Bytes, WatchFault> {
        let text = write_request(alloc, request)?;
        self.send(Message::text(alloc, text.as_str())?)?;
        next_text(self)
    }
}

/// The next text message. Skips others.
fn next_text<S: Read + Write + Drop, K: MaskKeys + Drop>(
    socket: &mut WebSocket<S, K>,
) -> Result<Utf8Bytes, WatchFault> {
    for _passed_over in 0..=MAX_PASSED_OVER {
        if let Message::Text(words) = socket.read()? {
            return Ok(words);
        }
    }
    Err(WatchFault::Session)
}

/// Sends a request, and returns the text of the reply.
pub(crate) fn text_for<A: Asks>(
    alloc: Global,
    session: &mut A,
    request: Request,
) -> Result<Utf8Bytes, WatchFault> {
    let text = session.ask(alloc, &request);
    drop(request);
    text
}

/// Sends a request, and returns the reply.
pub(crate) fn reply_to<A: Asks>(
    alloc: Global,
    session: &mut A,
    request: Request,
) -> Result<Reply, WatchFault> {
    let text = text_for(alloc, session, request)?;
    Ok(read_reply(alloc, text.as_bytes())?)
}

/// Connects to the server at this address.
pub(crate) fn connect<R: Net>(rt: &R, address: &str) -> Result<Uninterrupted<R::Stream>, Fault> {
    match TcpStream::connect(rt, address) {
        Ok(stream) => {
            let _ = stream.set_nodelay(true);
            Ok(Uninterrupted { stream })
        }
        Err(why) => Err(Fault::CannotConnect(why)),
    }
}

/// The address to ask for. Its path is a slash and the name of the first room of the chain, so the
/// session may enter the room also where sessions are confined to the chain of their path.
fn url_of(alloc: Global, room: &RoomName) -> Result<String, WatchFault> {
    let first = room.first(alloc)?;
    let name = first.text();
    Ok(format!(in alloc; "ws://localhost/{name}")?)
}

/// Opens a session over the stream, with the request of `url_of`.
pub(crate) fn session_over<'a, R, S>(
    rt: &'a R,
    alloc: Global,
    stream: S,
    room: &RoomName,
) -> Result<WebSocket<S, RandomKeys<&'a R>>, WatchFault>
where
    R: RandomSource,
    S: Read + Write + Drop,
{
    let url = url_of(alloc, room)?;
    let request = request_of(alloc, &url)?;
    match client(alloc, rt, request, stream) {
        Ok((socket, response)) => {
            drop(response);
            Ok(socket)
        }
        Err(HandshakeError::Failure(fault)) => Err(fault.into()),
        Err(HandshakeError::Interrupted(_handshake)) => Err(WatchFault::Session),
    }
}

/// Reads a message of a session that is being closed. Returns whether the closing handshake is
/// completed.
fn is_closed<S: Read + Write + Drop, K: MaskKeys + Drop>(
    socket: &mut WebSocket<S, K>,
) -> Result<bool, WatchFault> {
    match socket.read() {
        Ok(message) => {
            drop(message);
            Ok(false)
        }
        Err(Error::ConnectionClosed) => Ok(true),
        Err(error) => {
            drop(error);
            Err(WatchFault::Session)
        }
    }
}

/// Closes the session with 1000 (RFC 6455, section 7.4.1), and reads until the closing handshake is
/// completed.
pub(crate) fn close<S: Read + Write + Drop, K: MaskKeys + Drop>(
    socket: &mut WebSocket<S, K>,
) -> Result<(), WatchFault> {
    socket.close(Some(CloseFrame {
        code: CloseCode::Normal,
        reason: Utf8Bytes::from_static(""),
    }))?;
    for _passed_over in 0..=MAX_PASSED_OVER {
        if is_closed(socket)? {
            return Ok(());
        }
    }
    Err(WatchFault::Session)
}
