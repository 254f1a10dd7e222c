//! Prefixes of a room's record.

ghost use Rattle.std.specs.Prelude.{◌≡◌, ◌⊎◌, ◌↔◌, ◌≤◌, ◌<◌, true, false, length};
ghost use mathlib.Core.List.{IsPrefix};

use openings::{Opening, RoomHistories};
use shared_history::Front;
use std::marker::Model;

/// A prefix of a room's record. At run time it is the number of entries. Contracts see the room's
/// opening and the entries.
#[derive(Drop)]
pub struct Prefix<P: RoomHistories> {
    opening: Opening<P>,
    front: Front,
}

impl<P: RoomHistories> Model for Prefix<P> {
    ghost use Rattle.std.specs.Prelude.{◌≡◌};
    ghost use Rattle.room_lock.specs.Passes.{PrefixView};

    ghost Value = { PrefixView };

    ghost view = { λ p. record { opening = p.opening; entries = p.front.entries } };

    ghost invariant = { λ p. p.front.history ≡ p.opening.room.history };
}

impl<P: RoomHistories> Prefix<P> {
    /// The opening of the room.
    pub fn opening(&self) -> &Opening<P>
        ensures { result.now ≡ self.now.opening }
    {
        &self.opening
    }

    /// The place of the room among the rooms, from 0.
    pub fn place(&self) -> usize
        ensures { result ≡ self.now.opening.room.place }
    {
        self.opening.place()
    }

    /// The number of entries.
    pub fn len(&self) -> u64
        ensures { result ≡ length self.now.entries }
    {
        self.front.len()
    }

    /// Another prefix that is equal.
    pub fn copy(&self) -> Prefix<P>
        ensures { result ≡ self.now }
    {
        Prefix::of_front(&self.opening, &self.front)
    }

    /// The prefix of the opening's history that this front has seen.
    pub(crate) fn of_front(opening: &Opening<P>, front: &Front) -> Prefix<P>
        requires { front.now.history ≡ opening.now.room.history }
        ensures { result ≡ record { opening = opening.now; entries = front.now.entries } }
    {
        Prefix {
            opening: opening.copy(),
            front: front.copy(),
        }
    }

    /// Returns whether both belong to one room. The shorter is then a prefix of the longer.
    pub(crate) fn is_beside(&self, other: &Prefix<P>) -> bool
        ensures one_room { (result ≡ true) ↔ (self.now.opening ≡ other.now.opening) }
        ensures shorter { self.now.opening ≡ other.now.opening →
            length self.now.entries ≤ length other.now.entries →
            IsPrefix self.now.entries other.now.entries }
        ensures longer { self.now.opening ≡ other.now.opening →
            length other.now.entries ≤ length self.now.entries →
            IsPrefix other.now.entries self.now.entries }
    {
        if !self.opening.is_same(&other.opening) {
            return false;
        }
        self.front.shorter_begins_longer(&other.front);
        other.front.shorter_begins_longer(&self.front);
        true
    }

    /// Returns whether both belong to one room and this one is not longer. This one is then a
    /// prefix of the other.
    pub fn begins(&self, other: &Prefix<P>) -> bool
        ensures yes { result ≡ true → (self.now.opening ≡ other.now.opening)
            × IsPrefix self.now.entries other.now.entries }
        ensures no { result ≡ false → ¬ (self.now.opening ≡ other.now.opening)
            ⊎ (length other.now.entries < length self.now.entries) }
    {
        self.is_beside(other) && self.len() <= other.len()
    }
}
