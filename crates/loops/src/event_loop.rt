//! A loop over many lines.

use crate::bell::WAKE;
use crate::ending::Ending;
use crate::headroom::Headroom;
use crate::line::{Line, Next};
use crate::mail::{News, Outlook};
use crate::openings::Openings;
use crate::parked::Parked;
use crate::parts::Parts;
use crate::service::Service;
use crate::shared::{Bench, Shared};
use crate::slab::Slab;
use crate::times::{AWAY_MILLIS, SWEEP_MILLIS, has_passed, millis_since};
use mio::event::Event;
use mio::{Events, Poll};
use std::sync::Wait;
use std::time::{Clock, Duration, Instant};

/// How many polls may not wait once a line waits for a disk: about half a millisecond.
const EAGER_POLLS: u32 = 1_024;

/// A loop over many lines. It cannot be dropped: `end` ends its lines.
pub(crate) struct EventLoop<S, D, C: Drop> {
    pub(crate) number: usize,
    pub(crate) poll: Poll,
    pub(crate) lines: Slab<Line<S, D>>,
    pub(crate) parked: Parked,
    /// The lines with more to do.
    pub(crate) queue: Vec<usize>,
    /// The lines that had a turn in this round, and whose answers have not left.
    pub(crate) turned: Vec<Turned>,
    /// The lines that began last.
    pub(crate) openings: Openings,
    /// Room for what comes.
    pub(crate) news: News,
    pub(crate) bench: Bench<C>,
    /// How many polls may not wait, since a disk will have done soon.
    pub(crate) eager: u32,
    /// The time of this round.
    pub(crate) now: u64,
    /// When all lines were looked at.
    pub(crate) swept: u64,
    /// What is to come.
    pub(crate) outlook: Outlook,
    /// When it heard that the server goes away.
    pub(crate) away_since: u64,
}

/// A line that had its turn, and the place that its session was at before.
#[derive(Clone, Copy, Drop)]
pub(crate) struct Turned {
    key: usize,
    before: Option<usize>,
}

/// Runs a loop until there are no more arrivals and its last line has ended, or waiting fails.
pub(crate) fn run_loop<R: Wait + Clock, V: Service>(
    shared: &Shared<'_, R, V>,
    parts: Parts,
    began: Instant,
)
where
    V::Scratch: Drop,
{
    let Parts {
        number,
        poll,
        mut events,
        chunk,
        news,
        parked,
        openings,
    } = parts;
    let mut served: EventLoop<V::Session, V::Reported, V::Scratch> = EventLoop {
        number,
        poll,
        lines: Slab::new(shared.alloc),
        parked,
        queue: Vec::new(shared.alloc),
        turned: Vec::new(shared.alloc),
        openings,
        news,
        bench: Bench {
            scratch: shared.service.new_scratch(),
            chunk,
            headroom: Headroom::new(shared.alloc),
        },
        eager: 0,
        now: 0,
        swept: 0,
        outlook: Outlook::More,
        away_since: 0,
    };
    for _ in shared.rt.forever() {
        if !served.wait(shared, &mut events) {
            break;
        }
        served.now = millis_since(shared.rt, began, served.now);
        served.round(shared, &events);
    }
    served.end(shared);
}

impl<S, D: Drop, C: Drop> EventLoop<S, D, C> {
    /// Waits for the next reports: a second at most, and not at all while lines have more to do.
    /// Nor for a moment after a line began to wait for a disk, if no other line of any loop does: a
    /// thread that sleeps is woken late. Returns false if all is done, or waiting fails.
    fn wait<R, V>(&mut self, shared: &Shared<'_, R, V>, events: &mut Events) -> bool {
        if self.is_done() {
            return false;
        }
        let is_eager = self.eager > 0 && shared.burden.is_one_waiting();
        self.eager = self.eager.saturating_sub(1);
        let limit = if self.queue.is_empty() && !is_eager {
            1
        } else {
            0
        };
        self.poll
            .poll(events, Some(Duration::from_secs(limit)))
            .is_ok()
    }

    /// Returns whether all is done: no line is left and none comes, or the server went away long
    /// ago.
    fn is_done(&self) -> bool {
        match self.outlook {
            Outlook::More => false,
            Outlook::Last => self.lines.is_empty(),
            Outlook::Away => {
                self.lines.is_empty() || has_passed(self.now, self.away_since, AWAY_MILLIS)
            }
        }
    }

    /// One round: the lines that are reported, those that had more to do and those that arrived,
    /// then the answers of all of these, the news of rooms, and once a second all lines. So what
    /// has to be kept for the answers is asked for once they are made.
    fn round<R: Wait, V: Service<Session = S, Reported = D, Scratch = C>>(
        &mut self,
        shared: &Shared<'_, R, V>,
        events: &Events,
    ) {
        let queue = std::mem::replace(&mut self.queue, Vec::new(shared.alloc));
        for event in events {
            self.report(shared, event);
        }
        for key in queue {
            if let Some(line) = self.lines.get_mut(key) {
                line.is_queued = false;
            }
            self.give_turn(shared, key);
        }
        self.take_mail(shared);
        self.deliver_all(shared);
        self.hear_mail(shared);
        if has_passed(self.now, self.swept, SWEEP_MILLIS) {
            self.swept = self.now;
            self.sweep(shared);
        }
    }

    /// The system reports a line.
    fn report<R: Wait, V: Service<Session = S, Reported = D, Scratch = C>>(
        &mut self,
        shared: &Shared<'_, R, V>,
        event: &Event,
    ) {
        let token = event.token();
        if token == WAKE {
            return;
        }
        if let Some(line) = self.lines.get_mut(token.0) {
            line.readiness.report(
                event.is_readable(),
                event.is_read_closed() || event.is_error(),
            );
            self.give_turn(shared, token.0);
        }
    }

    /// A line has its turn.
    pub(crate) fn give_turn<R: Wait, V: Service<Session = S, Reported = D, Scratch = C>>(
        &mut self,
        shared: &Shared<'_, R, V>,
        key: usize,
    ) {
        let Some(line) = self.lines.get_mut(key) else {
            return;
        };
        let before = line.room_place(shared.service);
        if !line.turn(shared, &mut self.bench, self.now) {
            self.end_line(shared, key);
            return;
        }
        if self.turned.push(Turned { key, before }).is_err() {
            self.deliver(shared, key, before);
        }
    }

    /// The answers of the lines that had a turn leave.
    fn deliver_all<R: Wait, V: Service<Session = S, Reported = D, Scratch = C>>(
        &mut self,
        shared: &Shared<'_, R, V>,
    ) {
        let turned = std::mem::replace(&mut self.turned, Vec::new(shared.alloc));
        for Turned { key, before } in turned {
            self.deliver(shared, key, before);
        }
    }

    /// The answers of a line leave, and it waits for news if it has to. Its session was at the
    /// place `before` its turn.
    pub(crate) fn deliver<R: Wait, V: Service<Session = S, Reported = D, Scratch = C>>(
        &mut self,
        shared: &Shared<'_, R, V>,
        key: usize,
        before: Option<usize>,
    ) {
        let Some(line) = self.lines.get_mut(key) else {
            return;
        };
        let next = line.deliver(shared, self.now);
        self.follow(shared, key, next);
        self.park(shared, key, before, None);
    }

    /// Does what becomes of a line after its turn.
    pub(crate) fn follow<R: Wait, V: Service<Session = S, Reported = D, Scratch = C>>(
        &mut self,
        shared: &Shared<'_, R, V>,
        key: usize,
        next: Next,
    ) {
        match next {
            Next::Rests => {}
            Next::Again => {
                if !self.enqueue(key) {
                    self.end_line(shared, key);
                }
            }
            Next::Ends => self.end_line(shared, key),
        }
    }

    /// The line has another turn in the next round. Returns false if an allocation failed.
    fn enqueue(&mut self, key: usize) -> bool {
        match self.lines.get_mut(key) {
            Some(line) => {
                if !line.is_queued {
                    line.is_queued = self.queue.push(key).is_ok();
                }
                line.is_queued
            }
            None => true,
        }
    }

    /// Ends a line.
    pub(crate) fn end_line<R: Wait, V: Service<Session = S, Reported = D, Scratch = C>>(
        &mut self,
        shared: &Shared<'_, R, V>,
        key: usize,
    ) {
        if let Some(line) = self.lines.take(key) {
            self.lines.give_key(key);
            if let Some(place) = line.parked_at {
                self.parked.leave(place, key);
            }
            line.end(shared, Ending::Stream);
        }
    }

    /// Has the line wait for news, if it has to. The loop first says that it wants to hear of them,
    /// and then the line looks once more: either it sees what is new, or the loop hears of it. The
    /// loop has said so already at the place `watched`.
    pub(crate) fn park<R: Wait, V: Service<Session = S, Reported = D, Scratch = C>>(
        &mut self,
        shared: &Shared<'_, R, V>,
        key: usize,
        before: Option<usize>,
        watched: Option<usize>,
    ) {
        let Some(line) = self.lines.get_mut(key) else {
            return;
        };
        let Some(place) = line.place_to_wait(shared.service, before) else {
            return;
        };
        if line.parked_at == Some(place) {
            return;
        }
        if let Some(other) = line.parked_at {
            line.parked_at = None;
            self.parked.leave(other, key);
        }
        if watched != Some(place) {
            shared.bell.watch(self.number, place);
            let awaits_room = line.awaits_room(shared.service);
            let before = if awaits_room { None } else { Some(place) };
            let next = line.look(shared, &mut self.bench.scratch, true, self.now);
            if next != Next::Rests {
                self.follow(shared, key, next);
                return;
            }
            let waits_at = line.place_to_wait(shared.service, before);
            if waits_at != Some(place) {
                // It has entered a room meanwhile, and may wait there.
                if waits_at.is_some() {
                    self.follow(shared, key, Next::Again);
                }
                return;
            }
        }
        if self.parked.park(place, key) {
            line.parked_at = Some(place);
            if line.has_waiting() {
                self.eager = EAGER_POLLS;
            }
        }
    }

    /// There is news in the room at this place: each line that waits for it looks.
    pub(crate) fn hear_news<R: Wait, V: Service<Session = S, Reported = D, Scratch = C>>(
        &mut self,
        shared: &Shared<'_, R, V>,
        place: usize,
    ) {
        let keys = self.parked.take(place);
        if keys.is_empty() {
            return;
        }
        shared.bell.watch(self.number, place);
        for key in keys {
            let Some(line) = self.lines.get_mut(key) else {
                continue;
            };
            let before = line.room_parked_at(shared.service);
            line.parked_at = None;
            let next = line.look(shared, &mut self.bench.scratch, true, self.now);
            self.follow(shared, key, next);
            self.park(shared, key, before, Some(place));
        }
        if self.parked.is_empty(place) {
            shared.bell.unwatch(self.number, place);
        }
    }
}
