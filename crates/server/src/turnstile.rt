//! The number of sessions that a server may still admit.

ghost use Rattle.std.specs.Prelude.{◌≡◌, ◌⊎◌, ◌↔◌, ◌<◌, ◌+◌, ◌^◌, IsTrue, IsFalse, false, true};

use std::sync::{Condvar, Mutex, Wait};

/// Admits a number of sessions. A connection is admitted before it is known to be a session. One
/// that is none gives its place back.
#[derive(Drop)]
pub(crate) struct Turnstile {
    counts: Mutex<Counts>,
    changed: Condvar,
}

/// The number of sessions that may still be admitted, and of admitted connections that are not
/// known yet.
#[derive(Drop)]
struct Counts {
    left: u32,
    unknown: u32,
    /// The server goes away: nobody is admitted.
    is_away: bool,
}

impl Counts {
    /// Returns whether no place is left, but a connection that is not known yet may give one back.
    /// False if the server goes away.
    fn is_undecided(&self) -> bool
        ensures { IsTrue result
            ↔ (self.now.left ≡ 0) × (0 < self.now.unknown) × (self.now.is_away ≡ false) }
    {
        self.left == 0 && self.unknown > 0 && !self.is_away
    }

    /// Takes a place, if one is left, for a connection that is not known yet. Takes none if the
    /// server goes away.
    fn take(&mut self) -> bool
        ensures taken { IsTrue result →
            (self.old.left ≡ self.new.left + 1) × (self.old.is_away ≡ false) }
        ensures none { IsFalse result →
            ((self.old.left ≡ 0) ⊎ (self.old.is_away ≡ true)) × (self.new ≡ self.old) }
    {
        if self.left == 0 || self.is_away {
            return false;
        }
        self.left -= 1;
        self.unknown = self.unknown.saturating_add(1);
        true
    }

    /// One connection is known now.
    fn know(&mut self)
        ensures left { self.new.left ≡ self.old.left }
        ensures known { 0 < self.old.unknown → self.old.unknown ≡ self.new.unknown + 1 }
    {
        self.unknown = self.unknown.saturating_sub(1);
    }

    /// Gives one place back.
    fn give_back(&mut self)
        ensures left { self.old.left + 1 < 2 ^ 32 → self.new.left ≡ self.old.left + 1 }
        ensures unknown { self.new.unknown ≡ self.old.unknown }
    {
        self.left = self.left.saturating_add(1);
    }

    /// The server goes away.
    fn go_away(&mut self)
        ensures { self.new ≡ record self.old { is_away = true } }
    {
        self.is_away = true;
    }
}

impl Turnstile {
    /// Admits this many sessions.
    pub(crate) fn new(sessions: u32) -> Turnstile {
        Turnstile {
            counts: Mutex::new(Counts {
                left: sessions,
                unknown: 0,
                is_away: false,
            }),
            changed: Condvar::new(),
        }
    }

    /// Admits a connection, or returns false if no place is left. In the latter case it first waits
    /// until all admitted connections are known. Returns false if the server goes away, also while
    /// it waits.
    pub(crate) fn let_in(&self, rt: &impl Wait) -> bool {
        let counts = self.counts.lock(rt);
        let mut counts = self
            .changed
            .wait_while(rt, counts, |counts| counts.is_undecided());
        counts.take()
    }

    /// The server goes away: nobody is admitted any more.
    pub(crate) fn go_away(&self, rt: &impl Wait) {
        self.counts.lock(rt).go_away();
        self.changed.notify_all();
    }

    /// An admitted connection is a session.
    pub(crate) fn is_session(&self, rt: &impl Wait) {
        self.counts.lock(rt).know();
        self.changed.notify_all();
    }

    /// An admitted connection is no session, as a probe or who is turned away: its place is free
    /// again.
    pub(crate) fn is_no_session(&self, rt: &impl Wait) {
        let mut counts = self.counts.lock(rt);
        counts.know();
        counts.give_back();
        drop(counts);
        self.changed.notify_all();
    }
}
