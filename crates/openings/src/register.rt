//! The register of openings.

ghost use Rattle.std.specs.Prelude.{◌≡◌, ◌↔◌, ◌<◌, ◌≤◌, ◌^◌, ◌++◌, ◌∷◌, [], length};
ghost use Rattle.std.specs.Prelude.{IfNone, IfSome, IsNone, OnSome};

use crate::histories::RoomHistories;
use crate::new_opening::NewOpening;
use crate::opening::Opening;
use crate::rule::{Enter, Law, Nothing};
use logbook::{Offer, Seen, Start, Word};
use std::marker::{Model, PhantomData};
use std::sync::Wait;
use std::thread::yield_now;

/// The most openings of a register.
const MAX_OPENINGS: u64 = 1 << 62;

/// An empty register, which no type stands for yet. Contracts see which register it is.
#[derive(Drop)]
pub struct Blank {
    counter: Word<NewOpening, u64, Law>,
    seen: Seen<NewOpening, u64, Law>,
}

impl Model for Blank {
    ghost use Rattle.std.specs.Prelude.{◌≡◌, []};
    ghost use Rattle.logbook.specs.Pages.{Book};
    ghost use Rattle.openings.specs.steps.Rules.{opening_counter_of};

    ghost Value = { Book };

    ghost view = { λ blank. blank.seen.book };

    ghost invariant = { λ blank.
        (blank.counter ≡ opening_counter_of blank.seen.book) × (blank.seen.log ≡ []) };
}

impl Blank {
    /// A register without openings.
    pub fn new() -> Blank {
        let (seen, mut pen, _other) = Seen::open(Start::alone(), 0, 0);
        let counter = Word::tracked(0, &mut pen);
        Blank { counter, seen }
    }

    /// The register, under the type that stands for it.
    pub fn into_register<P: RoomHistories>(self) -> Register<P>
        requires { self ≡ P.register }
        ensures { result ≡ [] }
    {
        let Blank { counter, seen } = self;
        Register {
            counter,
            count: 0,
            seen,
            of: PhantomData,
        }
    }
}

/// The register: a counter of the openings, and what was seen of them. Only this value counts by
/// the counter, so it has seen all openings. Contracts see the rooms that were opened, in order.
#[derive(Drop)]
pub struct Register<P: RoomHistories> {
    counter: Word<NewOpening, u64, Law>,
    count: u64,
    seen: Seen<NewOpening, u64, Law>,
    of: PhantomData<P>,
}

impl<P: RoomHistories> Model for Register<P> {
    ghost use Rattle.std.specs.Prelude.{◌≡◌, List, length};
    ghost use Rattle.openings.specs.Openings.{Opened};
    ghost use Rattle.openings.specs.steps.Rules.{opening_counter_of};

    ghost Value = { List Opened };

    ghost view = { λ r. r.seen.log };

    ghost invariant = { λ r. (r.counter ≡ opening_counter_of P.register) × (r.seen.book ≡ P.register)
        × (r.count ≡ length r.seen.log) };
}

impl<P: RoomHistories> Register<P> {
    /// The number of openings.
    pub fn count(&self) -> u64
        ensures { result ≡ length self.now }
    {
        self.count
    }

    /// Enters a room behind those that were opened, and gives its opening. `None` if there are 2^62
    /// openings. Constant time. Does not return if the counter had another count, which never
    /// occurs, but no clause of a counter says so.
    pub fn try_enter<R: Wait>(&mut self, rt: &R, room: &NewOpening) -> Option<Opening<P>>
        ensures full { IsNone result ↔ (2 ^ 62 ≤ length self.old) }
        ensures opening { IfSome result (λ opening.
            opening ≡ record { number = length self.old; room = room.now }) }
        ensures entered { OnSome result (self.new ≡ self.old ++ room.now ∷ []) }
        ensures none { IfNone result (self.new ≡ self.old) }
    {
        if self.count() >= MAX_OPENINGS {
            return None;
        }
        for _ in rt.forever() {
            if let Some(opening) = self.try_next(room) {
                return Some(opening);
            }
            yield_now();
        }
        unreachable!()
    }

    /// Enters a room if the counter has the count of what was seen.
    fn try_next(&mut self, room: &NewOpening) -> Option<Opening<P>>
        requires { length self.old < 2 ^ 62 }
        ensures opening { IfSome result (λ opening.
            opening ≡ record { number = length self.old; room = room.now }) }
        ensures entered { OnSome result (self.new ≡ self.old ++ room.now ∷ []) }
        ensures none { IfNone result (self.new ≡ self.old) }
    {
        let mut seen = self.seen.again();
        let mut offer: Offer<NewOpening, u64, Law, Nothing> = seen.plain::<
            Nothing,
            NewOpening,
            Enter,
        >(room);
        let mut pen = seen.no_pen();
        let count = self.count;
        let found = self
            .counter
            .compare_exchange::<Enter, Nothing>(count, count + 1, &mut seen, &mut offer, &mut pen);
        if found != count {
            return None;
        }
        let opening = Opening::of(count, room.place(), &seen);
        self.seen = seen;
        self.count = count + 1;
        Some(opening)
    }
}
