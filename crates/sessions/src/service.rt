//! What the loops serve: the sessions of a host.

use crate::cause::Cause;
use crate::host::Host;
use crate::observer::Observer;
use crate::session::{Session, access_to};
use keeper::{Access, Keeper};
use loops::{Admission, Client, Ending, Service};
use room_lock::{Lookup, RoomHistories};
use scope::Scope;
use std::sync::Wait;
use wire_reader::Scratch;

impl<P: RoomHistories, R: Wait, O: Observer, K: Keeper<P>> Service for Host<'_, P, R, O, K> {
    ghost use Rattle.std.specs.Prelude.{◌≡◌, None};
    ghost use Rattle.sessions.specs.steps.Confined.{scope_for};

    ghost begins = { λ host target session.
        session ≡ record { scope = scope_for host.is_confining target; pass = None } };

    fn new_session(&self, target: &[u8]) -> Option<Session<P>> {
        let scope = self.scope_of(target).ok()?;
        Some(Session::new(scope))
    }

    /// A client that is confined to a chain waits until its first room is open, unless a later one
    /// is known. Where the room cannot be opened now, the client is not let in, so that a proxy can
    /// ask another server.
    fn admission(&self, target: &[u8]) -> Admission {
        if self.is_confining
            && let Ok(Scope::Only(name)) = Scope::of_target(self.alloc, target)
            && let Lookup::Closed = self.rooms.opening_of(self.rt, &name)
            && let Ok(None) = self.keeper.newest(self.rt, self.alloc, &name)
            && let Ok(access) = access_to(self, &name)
        {
            self.admission_by(&access)
        } else {
            Admission::Now
        }
    }

    fn not_served(&self) {
        self.observer.not_let_in();
    }

    fn new_scratch(&self) -> Scratch {
        Scratch::new(self.alloc)
    }

    fn place(&self, session: &Session<P>) -> Option<usize> {
        session.place()
    }

    fn before_session(&self) {
        self.observer.before_session();
    }

    fn after_probe(&self) {
        self.observer.after_probe();
    }

    fn turned_away(&self) {
        self.observer.turned_away();
    }

    fn after_session(&self, client: &Client, session: Option<Session<P>>, ending: Ending) {
        let cause = Cause::of_ending(ending);
        match session {
            Some(session) => {
                self.observer.after_session(client, session.room(), cause);
                session.end(self);
            }
            None => self.observer.after_session(client, None, cause),
        }
    }

    fn failing_room(&self) -> Option<String> {
        Some(self.keeper.failing(self.rt, self.alloc)?.room)
    }

    fn metrics(&self) -> Option<String> {
        self.observer.metrics()
    }
}

impl<P: RoomHistories, R, O: Observer, K> Host<'_, P, R, O, K> {
    /// When a client is let in that has this access to the room of its path.
    fn admission_by(&self, access: &Access<P>) -> Admission {
        match access {
            Access::New(_) | Access::Known(_) => Admission::Now,
            Access::Later(place) => Admission::Later(*place),
            Access::NotServed(reason) => {
                self.observer.not_served(*reason);
                Admission::NotServed
            }
        }
    }
}
