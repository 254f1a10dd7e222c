//! A site's part in a room.

ghost use Rattle.std.specs.Prelude.{◌≡◌, ◌↔◌, ◌≤◌, true, length};
ghost use mathlib.Core.List.{IsPrefix};
ghost use Rattle.room_lock.specs.Sites.{count_of_site};
ghost use Rattle.room_lock.specs.Passes.{prefix_of};

use crate::prefix::Prefix;
use openings::{Opening, RoomHistories};
use std::marker::Model;

/// A site's part in a room: how much of the record it has seen, and how many entries it added. The
/// entries that it has seen exist in the proofs alone.
#[derive(Drop)]
pub struct Part<P: RoomHistories> {
    pub(crate) site: u32,
    pub(crate) added: u32,
    pub(crate) seen: Prefix<P>,
}

impl<P: RoomHistories> Model for Part<P> {
    ghost use Rattle.std.specs.Prelude.{◌≤◌};
    ghost use Rattle.room_lock.specs.Passes.{PartView};
    ghost use Rattle.room_lock.specs.Sites.{count_of_site};

    ghost Value = { PartView };

    ghost view = { λ p. record {
      opening = p.seen.opening;
      site = p.site;
      seen = p.seen.entries;
      added = p.added;
    } };

    ghost invariant = { λ p. p.added ≤ count_of_site p.site p.seen.entries };
}

impl<P: RoomHistories> Part<P> {
    /// The site's number in the room, from 1.
    pub fn site(&self) -> u32
        ensures { result ≡ self.now.site }
    {
        self.site
    }

    /// The opening of the room.
    pub fn opening(&self) -> &Opening<P>
        ensures { result.now ≡ self.now.opening }
    {
        self.seen.opening()
    }

    /// The prefix of the room's record that the site has seen.
    pub fn prefix(&self) -> Prefix<P>
        ensures { result ≡ prefix_of self.now }
    {
        self.seen.copy()
    }

    /// The same prefix, which stays here.
    pub(crate) fn seen(&self) -> &Prefix<P>
        ensures { result.now ≡ prefix_of self.now }
    {
        &self.seen
    }

    /// The number of entries that the site added.
    pub fn count_added(&self) -> u32
        ensures added { result ≡ self.now.added }
        ensures own { self.now.added ≤ count_of_site self.now.site self.now.seen }
    {
        self.added
    }

    /// Returns whether both parts belong to one room. What one of them has seen is then a prefix of
    /// what the other has seen.
    pub fn is_beside(&self, other: &Part<P>) -> bool
        ensures one_room { (result ≡ true) ↔ (self.now.opening ≡ other.now.opening) }
        ensures shorter { self.now.opening ≡ other.now.opening →
            length self.now.seen ≤ length other.now.seen →
            IsPrefix self.now.seen other.now.seen }
    {
        self.seen.is_beside(&other.seen)
    }
}
