//! The seats of sessions.

ghost use Rattle.std.specs.Prelude.{◌≡◌, ◌<◌, ◌≤◌, ◌+◌, ◌-◌, ◌↔◌, IsNone, IsSome, IfNone, OnSome};

use std::sync::{Mutex, Wait};

/// A seat that is taken. It cannot be dropped: who has one gives it back.
pub(crate) struct Seat(());

/// How many seats there are, and how many of them are taken.
#[derive(Drop)]
struct Plan {
    seats: usize,
    taken: usize,
    ghost within: { taken ≤ seats },
}

impl Plan {
    /// Takes a seat, if one is free.
    fn take(&mut self) -> Option<Seat>
        ensures free { IsSome result ↔ (self.old.taken < self.old.seats) }
        ensures taken { OnSome result (self.new.taken ≡ self.old.taken + 1) }
        ensures none { IfNone result (self.new.taken ≡ self.old.taken) }
        ensures seats { self.new.seats ≡ self.old.seats }
    {
        if self.taken >= self.seats {
            return None;
        }
        self.taken += 1;
        Some(Seat(()))
    }

    /// Gives a seat back.
    fn give_back(&mut self, seat: Seat)
        ensures taken { self.new.taken ≡ self.old.taken - 1 }
        ensures seats { self.new.seats ≡ self.old.seats }
    {
        let Seat(()) = seat;
        self.taken = self.taken.saturating_sub(1);
    }
}

/// The seats of all loops' sessions. Never more are taken than there are.
#[derive(Drop)]
pub(crate) struct Seats {
    plan: Mutex<Plan>,
}

impl Seats {
    /// This many seats, all free.
    pub(crate) fn new(seats: usize) -> Seats {
        Seats {
            plan: Mutex::new(Plan { seats, taken: 0 }),
        }
    }

    /// Takes a seat, if one is free.
    pub(crate) fn take(&self, rt: &impl Wait) -> Option<Seat> {
        self.plan.lock(rt).take()
    }

    /// Gives a seat back.
    pub(crate) fn give_back(&self, rt: &impl Wait, seat: Seat) {
        self.plan.lock(rt).give_back(seat);
    }
}
