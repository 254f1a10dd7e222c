//! The stages of a line.

ghost use Rattle.std.specs.Prelude.{◌≡◌, [], IsNone, IsSome, is_some, None, Some, unwrap_or};
ghost use Rattle.loops.specs.steps.Delivering.{Delivers, DeliversAndMay};
ghost use Rattle.loops.specs.steps.Served.{AnswersOrStops, GoesAway, ReceivesOrStops, Stops};

use crate::client::Client;
use crate::ending::{Ending, is_server_fault};
use crate::output::Output;
use crate::seats::Seat;
use crate::service::Service;
use crate::shared::Shared;
use connection::{Closing, Connection, End};
use std::alloc::Global;
use std::sync::Wait;

/// A close frame of a server with the code 1011 (RFC 6455, sections 5.5.1 and 7.4.1).
const CLOSE_FOR_FAULT: [u8; 4] = [0x88, 2, 0x03, 0xf3];

/// A connection that is served, on its seat. It cannot be dropped: `end` gives the session and the
/// seat back.
pub(crate) struct Served<S, D> {
    pub(crate) connection: Connection<S, D>,
    seat: Seat,
    /// Why nothing more is taken from the client.
    over: Option<Ending>,
}

impl<S, D: Drop> Served<S, D> {
    /// A new connection.
    pub(crate) fn new(connection: Connection<S, D>, seat: Seat) -> Served<S, D>
        ensures { result ≡ record { connection = connection; seat = seat; over = None } }
    {
        Served {
            connection,
            seat,
            over: None,
        }
    }

    /// Returns whether nothing more is taken from the client.
    pub(crate) fn is_over(&self) -> bool
        ensures { result ≡ is_some self.now.over }
    {
        self.over.is_some()
    }

    /// Why the connection has ended, once nothing of it waits.
    pub(crate) fn finished(&self) -> Option<Ending>
        ensures some { IsSome result → (result ≡ self.now.over)
            × (self.now.connection.standing.waiting ≡ []) }
        ensures none { IsNone result → self.now.connection.standing.waiting ≡ [] →
            self.now.over ≡ None }
    {
        if self.connection.has_waiting() {
            None
        } else {
            self.over
        }
    }

    /// The client sends no more.
    pub(crate) fn hang_up(&mut self)
        ensures { self.new
            ≡ record self.old { over = Some (unwrap_or self.old.over Ending.Stream) } }
    {
        if self.over.is_none() {
            self.over = Some(Ending::Stream);
        }
    }

    /// Serves what came.
    pub(crate) fn receive<V: Service<Session = S, Reported = D>>(
        &mut self,
        service: &V,
        scratch: &mut V::Scratch,
        bytes: &[u8],
    )
        ensures { self.old.connection.ended ≡ None → ReceivesOrStops (V.turn service.now)
            (V.waits service.now) (V.blocks service.now) (V.fails service.now) self.old bytes.now
            self.new }
    {
        if let Err(end) = self.connection.receive(service, scratch, bytes) {
            self.fail(end);
        }
    }

    /// Answers the message that is held, or with `may_hold` if there is an answer.
    pub(crate) fn answer_held<V: Service<Session = S, Reported = D>>(
        &mut self,
        service: &V,
        scratch: &mut V::Scratch,
        may_hold: bool,
    )
        ensures { self.old.connection.ended ≡ None → AnswersOrStops (V.turn service.now)
            (V.waits service.now) (V.fails service.now) may_hold self.old self.new }
    {
        if let Err(end) = self.connection.answer_held(service, scratch, may_hold) {
            self.fail(end);
        }
    }

    /// The connection ends. If the server is at fault, a close stands behind what waits. Why it
    /// ended first stays.
    fn fail(&mut self, end: End)
        ensures { Stops end self.old.connection self.old.over self.new }
    {
        if self.over.is_some() {
            return;
        }
        if is_server_fault(end) {
            let _ = self.connection.close(Closing::Fault);
        }
        self.over = Some(Ending::Connection(end));
    }

    /// The server goes away: a close stands behind what waits, and nothing more is taken from the
    /// client. If its connection has ended already, nothing changes.
    pub(crate) fn go_away(&mut self)
        ensures { GoesAway self.old self.new }
    {
        if self.over.is_some() {
            return;
        }
        let _ = self.connection.close(Closing::Away);
        self.over = Some(Ending::Connection(End::Closed));
    }

    /// Moves to the output what is kept. Returns why the connection has ended, once nothing of it
    /// waits, or something will not be kept. In the latter case a close stands in the output if the
    /// server is at fault, and what waits is not sent.
    pub(crate) fn release<V: Service<Session = S, Reported = D>>(
        &mut self,
        service: &V,
        output: &mut Output,
    ) -> Option<Ending>
        ensures { DeliversAndMay V.shows CLOSE_FOR_FAULT self.old.connection.standing
            self.new.connection.standing output.old output.new }
    {
        match release_all(&mut self.connection, service, output) {
            Ok(()) => self.finished(),
            Err(end) => {
                if is_server_fault(end) {
                    let _ = output.append(&CLOSE_FOR_FAULT);
                }
                Some(self.over.unwrap_or(Ending::Connection(end)))
            }
        }
    }

    /// Ends the session, and gives it and its seat back.
    pub(crate) fn end<R: Wait, V: Service<Session = S, Reported = D>>(
        self,
        shared: &Shared<'_, R, V>,
        client: &Client,
        ending: Ending,
    ) {
        let Served {
            connection,
            seat,
            over,
        } = self;
        let session = connection.end();
        shared
            .service
            .after_session(client, Some(session), over.unwrap_or(ending));
        shared.seats.give_back(shared.rt, seat);
    }
}

/// Moves the frames that wait in a connection to the output, in order, until one is not kept.
///
/// # Errors
/// Why a frame will not be kept, or `NoMemory`.
fn release_all<S, D: Drop, V: Service<Session = S, Reported = D>>(
    connection: &mut Connection<S, D>,
    service: &V,
    output: &mut Output,
) -> Result<(), End>
    ensures { Delivers V.shows connection.old.standing connection.new.standing output.old
        output.new }
{
    for _ in 0..usize::MAX {
        match output.release(connection, service) {
            Ok(true) => {}
            Ok(false) => return Ok(()),
            Err(end) => return Err(end),
        }
    }
    Ok(())
}

/// A request that is not answered yet.
#[derive(Drop)]
pub(crate) struct Opening {
    /// What has come of its head.
    pub(crate) head: Vec<u8>,
    /// The place at whose news the service is asked again to let the client in. Nothing is read
    /// until then.
    pub(crate) awaited: Option<usize>,
}

impl Opening {
    /// A request of which nothing has come.
    pub(crate) fn new(alloc: Global) -> Opening
        ensures head { result.head.items ≡ [] }
        ensures awaited { result.awaited ≡ None }
    {
        Opening {
            head: Vec::new(alloc),
            awaited: None,
        }
    }
}

/// The stage of a line.
pub(crate) enum Stage<S, D> {
    /// The head of the request comes, or the client waits to be let in.
    Opening(Opening),
    /// Messages are served.
    Open(Served<S, D>),
    /// What waits is sent. Once that is done the end of the stream is awaited.
    Leaving { is_sent: bool },
}
