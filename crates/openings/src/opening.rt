//! An opening of a room.

ghost use Rattle.std.specs.Prelude.{◌≡◌, ◌↔◌, ◌<◌, length, true};
ghost use Rattle.openings.specs.steps.OpenedRooms.{opened_at};

use crate::histories::RoomHistories;
use crate::new_opening::NewOpening;
use crate::rule::Law;
use logbook::Seen;
use std::marker::{Model, PhantomData};

/// An opening of a room. At run time it is its number, which no other opening of the register has,
/// and the place of its room. Contracts see the number and the room: place, name and history.
#[derive(Drop)]
pub struct Opening<P: RoomHistories> {
    number: u64,
    place: usize,
    seen: Seen<NewOpening, u64, Law>,
    of: PhantomData<P>,
}

impl<P: RoomHistories> Model for Opening<P> {
    ghost use Rattle.std.specs.Prelude.{◌≡◌, ◌<◌, length};
    ghost use Rattle.openings.specs.Openings.{OpeningView};
    ghost use Rattle.openings.specs.steps.OpenedRooms.{opened_at};

    ghost Value = { OpeningView };

    ghost view = { λ o. record { number = o.number; room = opened_at o.seen.log o.number } };

    ghost invariant = { λ o. (o.number < length o.seen.log) × (o.seen.book ≡ P.register)
        × (o.place ≡ (opened_at o.seen.log o.number).place) };
}

impl<P: RoomHistories> Opening<P> {
    /// The opening of this number, of a room at this place, in what was seen of the register.
    pub(crate) fn of(number: u64, place: usize, seen: &Seen<NewOpening, u64, Law>) -> Opening<P>
        requires entered { number < length seen.now.log }
        requires register { seen.now.book ≡ P.register }
        requires place { place ≡ (opened_at seen.now.log number).place }
        ensures { result ≡ record { number = number; room = opened_at seen.now.log number } }
    {
        Opening {
            number,
            place,
            seen: seen.again(),
            of: PhantomData,
        }
    }

    /// The number of the opening in the register, from 0.
    pub fn number(&self) -> u64
        ensures { result ≡ self.now.number }
    {
        self.number
    }

    /// The place of the room among the rooms, from 0.
    pub fn place(&self) -> usize
        ensures { result ≡ self.now.room.place }
    {
        self.place
    }

    /// The same opening.
    pub fn copy(&self) -> Opening<P>
        ensures { result ≡ self.now }
    {
        Opening::of(self.number, self.place, &self.seen)
    }

    /// Proves that two openings of one number are one: of one room, with one history. It has no
    /// effect at run time.
    pub fn agree(&self, other: &Opening<P>)
        requires { self.now.number ≡ other.now.number }
        ensures { self.now ≡ other.now }
    {
        let mut both = self.seen.again();
        both.learn(&other.seen);
    }

    /// Returns whether both are one opening. Compares the numbers.
    pub fn is_same(&self, other: &Opening<P>) -> bool
        ensures { (result ≡ true) ↔ (self.now ≡ other.now) }
    {
        if self.number != other.number {
            return false;
        }
        self.agree(other);
        true
    }
}
