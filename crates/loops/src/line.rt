//! A line: a socket, and what is served on it.

use crate::client::Client;
use crate::ending::{Ending, unopened};
use crate::output::Output;
use crate::place::place_to_wait;
use crate::readiness::{Load, Readiness, Step, next_step};
use crate::service::Service;
use crate::shared::{Bench, Shared};
use crate::stage::{Opening, Stage};
use crate::times::{HELD_MILLIS, Patience, Phase, Times, has_passed, is_overdue};
use mio::net::TcpStream;
use std::alloc::Global;
use std::io::{ErrorKind, Read};
use std::net::Shutdown;
use std::sync::Wait;

/// Where what a line holds has changed by fewer bytes, the burden of all lines does not count it
/// anew: all loops share that.
const WEIGHED_LEN: usize = 4_096;

/// A socket, and what is served on it. It cannot be dropped: `end` gives its session back.
pub(crate) struct Line<S, D> {
    pub(crate) stream: TcpStream,
    pub(crate) client: Client,
    pub(crate) stage: Stage<S, D>,
    pub(crate) output: Output,
    pub(crate) readiness: Readiness,
    pub(crate) times: Times,
    /// The place at whose news the loop looks at it.
    pub(crate) parked_at: Option<usize>,
    /// It has its next turn without a report of the system.
    pub(crate) is_queued: bool,
    /// How many bytes of it the burden of all lines counts.
    counted: usize,
    /// Whether the burden counts it as waiting for something to be kept.
    is_waiting: bool,
}

/// What becomes of a line after its turn.
#[derive(Clone, Copy, Debug, PartialEq, Eq)]
pub(crate) enum Next {
    /// It waits for the socket, or for its room.
    Rests,
    /// It has more to do.
    Again,
    /// The stream has failed, or all is sent and the client is gone.
    Ends,
}

impl<S, D: Drop> Line<S, D> {
    /// A line of which nothing was heard.
    pub(crate) fn new(alloc: Global, client: Client, stream: TcpStream, now: u64) -> Line<S, D> {
        Line {
            stream,
            client,
            stage: Stage::Opening(Opening::new(alloc)),
            output: Output::new(alloc),
            readiness: Readiness::UNKNOWN,
            times: Times::new(now),
            parked_at: None,
            is_queued: false,
            counted: 0,
            is_waiting: false,
        }
    }

    /// What can be done. `is_full` says that nothing more is taken from clients.
    fn load<V: Service<Session = S, Reported = D>>(&self, service: &V, is_full: bool) -> Load {
        let mut load = Load {
            output_len: self.output.len(),
            is_behind: false,
            has_waiting: false,
            is_blocked: false,
            is_over: false,
            is_full,
        };
        match &self.stage {
            Stage::Opening(opening) => {
                load.is_behind = opening.awaited.is_some();
                load.is_blocked = opening.awaited.is_some();
            }
            Stage::Open(served) => {
                load.is_behind = served.connection.is_behind();
                load.has_waiting = served.connection.has_waiting();
                load.is_blocked = served.connection.is_blocked(service);
                load.is_over = served.is_over();
            }
            Stage::Leaving { is_sent } => load.is_over = !*is_sent,
        }
        load
    }

    /// How many bytes it holds, with those of its output that were sent.
    fn weight(&self) -> usize {
        let before_output = match &self.stage {
            Stage::Opening(opening) => opening.head.len(),
            Stage::Open(served) => served.connection.load(),
            Stage::Leaving { .. } => 0,
        };
        before_output.saturating_add(self.output.memory())
    }

    /// What the line does next.
    fn next_step<R, V: Service<Session = S, Reported = D>>(
        &self,
        shared: &Shared<'_, R, V>,
    ) -> Step {
        let load = self.load(shared.service, shared.burden.is_full());
        next_step(load, self.readiness.is_readable)
    }

    /// Returns whether it can go on.
    pub(crate) fn has_more<R, V: Service<Session = S, Reported = D>>(
        &self,
        shared: &Shared<'_, R, V>,
    ) -> bool {
        self.next_step(shared) != Step::Rest
    }

    /// Returns whether the request is not answered yet.
    pub(crate) fn is_opening(&self) -> bool {
        matches!(self.stage, Stage::Opening(_))
    }

    /// The place at whose news the service is asked again to let the client in.
    fn awaited(&self) -> Option<usize> {
        match &self.stage {
            Stage::Opening(opening) => opening.awaited,
            Stage::Open(_) | Stage::Leaving { .. } => None,
        }
    }

    /// Returns whether the client waits to be let in.
    pub(crate) fn is_awaiting(&self) -> bool {
        self.awaited().is_some()
    }

    /// Returns whether a message is held.
    fn is_held(&self) -> bool {
        match &self.stage {
            Stage::Open(served) => served.connection.is_held(),
            Stage::Opening(_) | Stage::Leaving { .. } => false,
        }
    }

    /// Returns whether a message is held for too long.
    pub(crate) fn is_held_long(&self, now: u64) -> bool {
        self.is_held() && has_passed(now, self.times.held, HELD_MILLIS)
    }

    /// Returns whether frames wait for what they report to be kept.
    pub(crate) fn has_waiting(&self) -> bool {
        match &self.stage {
            Stage::Open(served) => served.connection.has_waiting(),
            Stage::Opening(_) | Stage::Leaving { .. } => false,
        }
    }

    /// What is awaited.
    fn phase(&self) -> Phase {
        match &self.stage {
            Stage::Opening(_) => Phase::Opening,
            Stage::Open(served) if served.is_over() => Phase::Over,
            Stage::Open(served) => Phase::Open {
                is_held: served.connection.is_held(),
            },
            Stage::Leaving { is_sent: false } => Phase::Leaving,
            Stage::Leaving { is_sent: true } => Phase::Lingering,
        }
    }

    /// Returns whether it has taken too long.
    pub(crate) fn is_overdue(&self, now: u64, patience: Patience) -> bool {
        let has_output = self.output.len() > 0;
        is_overdue(self.phase(), self.times, has_output, patience, now)
    }

    /// The place at which there is news for the session.
    fn place<V: Service<Session = S, Reported = D>>(&self, service: &V) -> Option<usize> {
        match &self.stage {
            Stage::Open(served) => service.place(served.connection.session()),
            Stage::Opening(_) | Stage::Leaving { .. } => None,
        }
    }

    /// Returns whether it waits for a room that its session is not in: before it is let in, or with
    /// a held message that blocks.
    pub(crate) fn awaits_room<V: Service<Session = S, Reported = D>>(&self, service: &V) -> bool {
        match &self.stage {
            Stage::Opening(_) => true,
            Stage::Open(served) => served.connection.is_blocked(service),
            Stage::Leaving { .. } => false,
        }
    }

    /// The place of the room that the session is in. `None` while it waits for another.
    pub(crate) fn room_place<V: Service<Session = S, Reported = D>>(
        &self,
        service: &V,
    ) -> Option<usize> {
        if self.awaits_room(service) {
            None
        } else {
            self.place(service)
        }
    }

    /// The place at which it is parked, if that is of a room that its session was in.
    pub(crate) fn room_parked_at<V: Service<Session = S, Reported = D>>(
        &self,
        service: &V,
    ) -> Option<usize> {
        if self.awaits_room(service) {
            None
        } else {
            self.parked_at
        }
    }

    /// The place at which the line waits. The session was at the place `before` when its first
    /// frame that waits was made.
    pub(crate) fn place_to_wait<V: Service<Session = S, Reported = D>>(
        &self,
        service: &V,
        before: Option<usize>,
    ) -> Option<usize> {
        self.awaited().or(place_to_wait(
            self.is_held(),
            self.has_waiting(),
            before,
            self.place(service),
        ))
    }

    /// A turn: sends what waits, and reads once or serves more of what was read. The burden counts
    /// what it holds then, before the next line has its turn. Returns false if the stream has
    /// failed, or has ended and nothing is left to do.
    pub(crate) fn turn<R: Wait, V: Service<Session = S, Reported = D>>(
        &mut self,
        shared: &Shared<'_, R, V>,
        bench: &mut Bench<V::Scratch>,
        now: u64,
    ) -> bool
    where
        V::Scratch: Drop,
    {
        let goes_on = self.send(now) && self.go_on(shared, bench, now);
        self.weigh(shared);
        goes_on
    }

    /// Reads once, or serves more of what was read. Returns false if the stream has failed, or has
    /// ended and nothing is left to do.
    fn go_on<R: Wait, V: Service<Session = S, Reported = D>>(
        &mut self,
        shared: &Shared<'_, R, V>,
        bench: &mut Bench<V::Scratch>,
        now: u64,
    ) -> bool
    where
        V::Scratch: Drop,
    {
        match self.next_step(shared) {
            Step::Read => self.read(shared, bench, now),
            Step::GoOn => {
                self.receive(shared, &mut bench.scratch, &[], now);
                true
            }
            Step::Rest => true,
        }
    }

    /// Hears the held message again. Without `may_hold` it is answered. Or asks again whether the
    /// client is let in. Sends what is kept.
    pub(crate) fn look<R: Wait, V: Service<Session = S, Reported = D>>(
        &mut self,
        shared: &Shared<'_, R, V>,
        scratch: &mut V::Scratch,
        may_hold: bool,
        now: u64,
    ) -> Next {
        let was_waiting = self.is_held() || self.is_awaiting();
        match &mut self.stage {
            Stage::Opening(opening) if opening.awaited.is_some() => self.open(shared, scratch, now),
            Stage::Open(served) if served.connection.is_held() => {
                served.answer_held(shared.service, scratch, may_hold);
            }
            Stage::Opening(_) | Stage::Open(_) | Stage::Leaving { .. } => {}
        }
        if was_waiting && !self.is_held() && !self.is_awaiting() {
            self.times.heard = now;
        }
        self.deliver(shared, now)
    }

    /// Sends what is kept, and says what becomes of the line.
    pub(crate) fn deliver<R: Wait, V: Service<Session = S, Reported = D>>(
        &mut self,
        shared: &Shared<'_, R, V>,
        now: u64,
    ) -> Next {
        if let Stage::Open(served) = &mut self.stage
            && let Some(ending) = served.release(shared.service, &mut self.output)
        {
            self.finish(shared, ending);
        }
        if !self.send(now) {
            return Next::Ends;
        }
        self.shut_down(now);
        self.weigh(shared);
        if self.has_more(shared) {
            Next::Again
        } else {
            Next::Rests
        }
    }

    /// Has the burden of all lines count what it holds, to within `WEIGHED_LEN`.
    fn weigh<R, V: Service<Session = S, Reported = D>>(&mut self, shared: &Shared<'_, R, V>) {
        let weight = self.weight();
        if weight.abs_diff(self.counted) >= WEIGHED_LEN {
            shared.burden.change(self.counted, weight);
            self.counted = weight;
        }
        let is_waiting = self.has_waiting();
        if is_waiting != self.is_waiting {
            shared.burden.change_waiting(is_waiting);
            self.is_waiting = is_waiting;
        }
    }

    /// Sends what waits, as far as the stream takes it. Returns false if the stream has failed.
    fn send(&mut self, now: u64) -> bool {
        for _ in 0..usize::MAX {
            if self.output.len() == 0 {
                self.times.sent = now;
                return true;
            }
            match self.output.send(&mut self.stream) {
                Ok(0) => return false,
                Ok(_) => self.times.sent = now,
                Err(fault) => match fault.kind() {
                    ErrorKind::WouldBlock => return true,
                    ErrorKind::Interrupted => {}
                    _ => return false,
                },
            }
        }
        false
    }

    /// Reads once, and hears what came. Returns false if the stream has failed, or has ended and
    /// nothing is left to do.
    fn read<R: Wait, V: Service<Session = S, Reported = D>>(
        &mut self,
        shared: &Shared<'_, R, V>,
        bench: &mut Bench<V::Scratch>,
        now: u64,
    ) -> bool
    where
        V::Scratch: Drop,
    {
        let room = bench.chunk.len();
        match self.stream.read(bench.chunk.as_mut_slice()) {
            Ok(0) => self.hang_up(now),
            Ok(count) => {
                self.readiness.read(count, room);
                bench.headroom.add(count);
                self.times.heard = now;
                self.hear(shared, &mut bench.scratch, &bench.chunk[..count], now);
                true
            }
            Err(fault) => match fault.kind() {
                ErrorKind::WouldBlock => {
                    self.readiness.found_nothing();
                    true
                }
                ErrorKind::Interrupted => true,
                _ => false,
            },
        }
    }

    /// The client sends no more. Returns whether something is left to do.
    fn hang_up(&mut self, now: u64) -> bool {
        self.times.heard = now;
        match &mut self.stage {
            Stage::Open(served) => {
                served.hang_up();
                true
            }
            Stage::Opening(_) | Stage::Leaving { .. } => false,
        }
    }

    /// Serves bytes that came.
    fn hear<R: Wait, V: Service<Session = S, Reported = D>>(
        &mut self,
        shared: &Shared<'_, R, V>,
        scratch: &mut V::Scratch,
        bytes: &[u8],
        now: u64,
    ) {
        match &mut self.stage {
            Stage::Opening(opening) => {
                if opening.head.extend_from_slice(bytes).is_ok() {
                    self.open(shared, scratch, now);
                } else {
                    self.finish(shared, Ending::Connection(connection::End::NoMemory));
                }
            }
            Stage::Open(_) => self.receive(shared, scratch, bytes, now),
            Stage::Leaving { .. } => {}
        }
    }

    /// Serves messages that came.
    pub(crate) fn receive<R, V: Service<Session = S, Reported = D>>(
        &mut self,
        shared: &Shared<'_, R, V>,
        scratch: &mut V::Scratch,
        bytes: &[u8],
        now: u64,
    ) {
        if let Stage::Open(served) = &mut self.stage {
            let was_held = served.connection.is_held();
            served.receive(shared.service, scratch, bytes);
            if !was_held {
                self.times.held = now;
            }
        }
    }

    /// Goes over to another stage. The session of an open one ends, and is given back.
    pub(crate) fn enter<R: Wait, V: Service<Session = S, Reported = D>>(
        &mut self,
        shared: &Shared<'_, R, V>,
        stage: Stage<S, D>,
        ending: Ending,
    ) {
        match std::mem::replace(&mut self.stage, stage) {
            Stage::Open(served) => served.end(shared, &self.client, ending),
            Stage::Opening(_opening) => {}
            Stage::Leaving { is_sent: _ } => {}
        }
    }

    /// The session ends. What waits in the output is sent still.
    pub(crate) fn finish<R: Wait, V: Service<Session = S, Reported = D>>(
        &mut self,
        shared: &Shared<'_, R, V>,
        ending: Ending,
    ) {
        match &self.stage {
            Stage::Opening(_) => shared.refuse(&self.client, unopened(ending)),
            Stage::Open(_) => {}
            Stage::Leaving { .. } => return,
        }
        self.enter(shared, Stage::Leaving { is_sent: false }, ending);
    }

    /// The server goes away: the session is closed behind the answers that wait. Returns false if
    /// it has not begun.
    pub(crate) fn go_away(&mut self, now: u64) -> bool {
        match &mut self.stage {
            Stage::Opening(_) => return false,
            Stage::Open(served) => {
                served.go_away();
                self.times.heard = now;
            }
            Stage::Leaving { .. } => {}
        }
        true
    }

    /// Once all is sent on a line whose session has ended, the client hears the end of the stream.
    fn shut_down(&mut self, now: u64) {
        if self.output.len() == 0
            && let Stage::Leaving { is_sent } = &mut self.stage
            && !*is_sent
        {
            *is_sent = true;
            self.times.began = now;
            let _ = self.stream.shutdown(Shutdown::Write);
        }
    }

    /// Ends the line. If its session has not ended, it ends so.
    pub(crate) fn end<R: Wait, V: Service<Session = S, Reported = D>>(
        self,
        shared: &Shared<'_, R, V>,
        ending: Ending,
    ) {
        let Line {
            stream: _,
            client,
            stage,
            output: _,
            readiness: _,
            times: _,
            parked_at: _,
            is_queued: _,
            counted,
            is_waiting,
        } = self;
        shared.burden.change(counted, 0);
        if is_waiting {
            shared.burden.change_waiting(false);
        }
        match stage {
            Stage::Opening(_opening) => shared.refuse(&client, unopened(ending)),
            Stage::Open(served) => served.end(shared, &client, ending),
            Stage::Leaving { is_sent: _ } => {}
        }
    }
}
