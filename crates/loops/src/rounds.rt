//! What a loop does once in a round: its mail, all its lines once a second, and their end.

use crate::client::Client;
use crate::ending::Ending;
use crate::event_loop::EventLoop;
use crate::line::{Line, Next};
use crate::mail::{Handed, Outlook};
use crate::openings::Begun;
use crate::service::Service;
use crate::shared::Shared;
use crate::slab::Slab;
use crate::times::Patience;
use connection::End;
use mio::net::TcpStream;
use mio::{Interest, Token};
use std::sync::Wait;

impl<S, D: Drop, C: Drop> EventLoop<S, D, C> {
    /// Takes what came, and begins the lines that arrived. Closes all lines once the server goes
    /// away.
    pub(crate) fn take_mail<R: Wait, V: Service<Session = S, Reported = D, Scratch = C>>(
        &mut self,
        shared: &Shared<'_, R, V>,
    ) {
        let before = self.outlook;
        self.outlook = shared.bell.take(shared.rt, self.number, &mut self.news);
        let arrivals = std::mem::replace(&mut self.news.arrivals, Vec::new(shared.alloc));
        for handed in arrivals {
            self.begin(shared, handed);
        }
        if self.outlook == Outlook::Away && before != Outlook::Away {
            self.go_away(shared);
        }
    }

    /// The server goes away: ends the lines that have not opened, and closes the others.
    fn go_away<R: Wait, V: Service<Session = S, Reported = D, Scratch = C>>(
        &mut self,
        shared: &Shared<'_, R, V>,
    ) {
        self.away_since = self.now;
        for key in 0..self.lines.end_of_keys() {
            let Some(line) = self.lines.get_mut(key) else {
                continue;
            };
            let before = line
                .room_parked_at(shared.service)
                .or(line.room_place(shared.service));
            if line.go_away(self.now) {
                self.deliver(shared, key, before);
            } else {
                self.end_line(shared, key);
            }
        }
    }

    /// Has the lines look that wait for the news that came.
    pub(crate) fn hear_mail<R: Wait, V: Service<Session = S, Reported = D, Scratch = C>>(
        &mut self,
        shared: &Shared<'_, R, V>,
    ) {
        for _ in 0..shared.bell.places() {
            let Some(place) = self.news.next_room() else {
                return;
            };
            self.hear_news(shared, place);
        }
    }

    /// Begins a line, whose first bytes may be there.
    fn begin<R: Wait, V: Service<Session = S, Reported = D, Scratch = C>>(
        &mut self,
        shared: &Shared<'_, R, V>,
        handed: Handed,
    ) {
        let Handed { session, arrival } = handed;
        let client = Client {
            session,
            address: arrival.address,
        };
        let mut stream = TcpStream::from_std(arrival.stream);
        let Some(key) = self.lines.free_key() else {
            shared.refuse(&client, Ending::Connection(End::NoMemory));
            return;
        };
        let both = Interest::READABLE | Interest::WRITABLE;
        if self
            .poll
            .registry()
            .register(&mut stream, Token(key), both)
            .is_err()
        {
            self.lines.give_key(key);
            shared.refuse(&client, Ending::Stream);
            return;
        }
        let line = Line::new(shared.alloc, client, stream, self.now);
        if let Some(other) = self.lines.put(key, line) {
            other.end(shared, Ending::Stream);
        }
        if let Some(oldest) = self.openings.add(Begun { key, session }) {
            self.end_unopened(shared, oldest);
        }
        self.give_turn(shared, key);
    }

    /// Ends a line if its head has not come.
    fn end_unopened<R: Wait, V: Service<Session = S, Reported = D, Scratch = C>>(
        &mut self,
        shared: &Shared<'_, R, V>,
        begun: Begun,
    ) {
        if let Some(line) = self.lines.get_mut(begun.key)
            && line.client.session == begun.session
            && line.is_opening()
            && !line.is_awaiting()
        {
            self.end_line(shared, begun.key);
        }
    }

    /// Ends the lines that are overdue, answers what is held for long, asks again for clients that
    /// wait to be let in, and sends what is kept. A line that rested since all lines held too much
    /// goes on.
    pub(crate) fn sweep<R: Wait, V: Service<Session = S, Reported = D, Scratch = C>>(
        &mut self,
        shared: &Shared<'_, R, V>,
    ) {
        let patience = Patience::new(shared.idle, shared.burden.is_crowded());
        for key in 0..self.lines.end_of_keys() {
            let Some(line) = self.lines.get_mut(key) else {
                continue;
            };
            if line.is_overdue(self.now, patience) {
                self.end_line(shared, key);
            } else if line.is_held_long(self.now) || line.has_waiting() || line.is_awaiting() {
                let before = line.room_parked_at(shared.service);
                let may_hold = !line.is_held_long(self.now);
                let next = line.look(shared, &mut self.bench.scratch, may_hold, self.now);
                self.follow(shared, key, next);
                self.park(shared, key, before, None);
            } else if line.has_more(shared) {
                self.follow(shared, key, Next::Again);
            }
        }
    }

    /// Ends all lines, and refuses what still arrives.
    pub(crate) fn end<R: Wait, V: Service<Session = S, Reported = D, Scratch = C>>(
        self,
        shared: &Shared<'_, R, V>,
    ) {
        let EventLoop {
            number,
            poll: _,
            lines,
            parked: _,
            queue: _,
            turned: _,
            openings: _,
            mut news,
            bench: _,
            eager: _,
            now: _,
            swept: _,
            outlook: _,
            away_since: _,
        } = self;
        shared.bell.close(shared.rt, number);
        shared.bell.take(shared.rt, number, &mut news);
        for handed in news.arrivals {
            let Handed { session, arrival } = handed;
            let client = Client {
                session,
                address: arrival.address,
            };
            shared.refuse(&client, Ending::Stream);
        }
        end_lines(shared, lines);
    }
}

/// Ends these lines.
fn end_lines<R: Wait, V: Service>(
    shared: &Shared<'_, R, V>,
    lines: Slab<Line<V::Session, V::Reported>>,
) {
    let mut values = lines.into_values();
    for _ in shared.rt.forever() {
        match values.pop() {
            Some(Some(line)) => line.end(shared, Ending::Stream),
            Some(None) => {}
            None => {
                values.destroy_empty();
                return;
            }
        }
    }
    unreachable!()
}
