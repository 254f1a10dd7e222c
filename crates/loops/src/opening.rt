//! The opening of a line: the head of its request.

ghost use Rattle.std.specs.Prelude.{◌≡◌, ◌++◌, [], OnErr, OnOk};
ghost use Rattle.websocket.specs.Handshake.{response_bytes};

use crate::ending::Ending;
use crate::line::Line;
use crate::service::{Admission, Service};
use crate::shared::Shared;
use crate::stage::{Opening, Served, Stage};
use connection::{
    Connection, End, Head, Page, UNAVAILABLE, health_answer, metrics_answer, read_head,
    write_switching,
};
use std::alloc::{AllocError, Global};
use std::sync::Wait;

impl<S, D: Drop> Line<S, D> {
    /// Answers the head of the request, if it is whole. If the client is let in later, the head is
    /// kept.
    pub(crate) fn open<R: Wait, V: Service<Session = S, Reported = D>>(
        &mut self,
        shared: &Shared<'_, R, V>,
        scratch: &mut V::Scratch,
        now: u64,
    ) {
        let Some(head) = self.take_head(shared.alloc) else {
            return;
        };
        match read_head(head.as_slice()) {
            Head::Partial => self.keep_head(head, None),
            Head::Refused => self.finish(shared, Ending::NoHandshake),
            Head::Probe(page) => self.answer_probe(shared, page),
            Head::Upgrade {
                accept_key,
                target,
                len,
            } => {
                let target = target.of(head.as_slice());
                match shared.service.admission(target) {
                    Admission::Now => {
                        if self.admit(shared, target, &accept_key) {
                            let frames = head.get(len..).unwrap_or(&[]);
                            self.receive(shared, scratch, frames, now);
                        }
                    }
                    Admission::Later(place) => self.keep_head(head, Some(place)),
                    Admission::NotServed => {
                        self.turn_away(shared);
                        shared.service.not_served();
                    }
                }
            }
        }
    }

    /// Takes out what has come of the head.
    fn take_head(&mut self, alloc: Global) -> Option<Vec<u8>> {
        match &mut self.stage {
            Stage::Opening(opening) => {
                Some(std::mem::replace(&mut opening.head, Vec::new(alloc)))
            }
            Stage::Open(_) | Stage::Leaving { .. } => None,
        }
    }

    /// Keeps what has come of the head until more comes, or there is news at the place `awaited`.
    fn keep_head(&mut self, head: Vec<u8>, awaited: Option<usize>) {
        if let Stage::Opening(opening) = &mut self.stage {
            *opening = Opening { head, awaited };
        }
    }

    /// Answers a probe.
    fn answer_probe<R: Wait, V: Service<Session = S, Reported = D>>(
        &mut self,
        shared: &Shared<'_, R, V>,
        page: Page,
    ) {
        let Some(answer) = probe_answer(shared, page) else {
            self.finish(shared, Ending::NoHandshake);
            return;
        };
        let _ = self.output.append(answer.as_bytes());
        shared.service.after_probe();
        self.enter(
            shared,
            Stage::Leaving { is_sent: false },
            Ending::NoHandshake,
        );
    }

    /// Begins the session of a request for this target, if a seat is free. Else the client is
    /// turned away. Returns whether the session has begun.
    fn admit<R: Wait, V: Service<Session = S, Reported = D>>(
        &mut self,
        shared: &Shared<'_, R, V>,
        target: &[u8],
        accept_key: &[u8; 28],
    ) -> bool {
        let Some(seat) = shared.seats.take(shared.rt) else {
            self.turn_away(shared);
            shared.service.turned_away();
            return false;
        };
        let Some(session) = shared.service.new_session(target) else {
            shared.seats.give_back(shared.rt, seat);
            self.finish(shared, Ending::Connection(End::NoMemory));
            return false;
        };
        shared.service.before_session();
        let connection = Connection::open(shared.alloc, session);
        let opened = Stage::Open(Served::new(connection, seat));
        self.enter(shared, opened, Ending::Stream);
        if self.switch(shared.alloc, accept_key).is_err() {
            self.finish(shared, Ending::Connection(End::NoMemory));
            return false;
        }
        true
    }

    /// The client is answered by 503.
    fn turn_away<R: Wait, V: Service<Session = S, Reported = D>>(
        &mut self,
        shared: &Shared<'_, R, V>,
    ) {
        let _ = self.output.append(UNAVAILABLE.as_bytes());
        self.enter(
            shared,
            Stage::Leaving { is_sent: false },
            Ending::NoHandshake,
        );
    }

    /// Accepts the WebSocket.
    fn switch(&mut self, alloc: Global, accept_key: &[u8; 28]) -> Result<(), AllocError>
        ensures ok { OnOk result (self.new.output
            ≡ self.old.output ++ response_bytes accept_key.now []) }
        ensures err { OnErr result (self.new.output ≡ self.old.output) }
    {
        let mut response = Vec::new(alloc);
        write_switching(accept_key, &mut response)?;
        self.output.append(response.as_slice())
    }
}

/// The answer to a probe of a page, or `None` if the server has no such page or an allocation
/// failed.
fn probe_answer<R, V: Service>(shared: &Shared<'_, R, V>, page: Page) -> Option<String> {
    match page {
        Page::Health => {
            let failing = shared.service.failing_room();
            let room = match &failing {
                Some(room) => Some(room.as_str()),
                None => None,
            };
            health_answer(shared.alloc, room).ok()
        }
        Page::Metrics => {
            let metrics = shared.service.metrics()?;
            metrics_answer(shared.alloc, metrics.as_str()).ok()
        }
    }
}
