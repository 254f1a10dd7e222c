//! What a room's file keeps.

ghost use Rattle.std.specs.Prelude.{◌≡◌, ◌⊎◌, ◌<◌, true, false, length};
ghost use Rattle.keeping.specs.Kept.{IsKeptIn};

use room_lock::{Prefix, RoomHistories};
use std::marker::Model;

/// A prefix of a room's record that the room's file keeps. Only the module of the file creates one;
/// other code copies it.
#[derive(Drop)]
pub struct Kept<P: RoomHistories> {
    prefix: Prefix<P>,
}

impl<P: RoomHistories> Model for Kept<P> {
    ghost use Rattle.room_lock.specs.Passes.{PrefixView};

    ghost Value = { PrefixView };

    ghost view = { λ k. k.prefix };
}

impl<P: RoomHistories> Kept<P> {
    /// The file keeps this prefix.
    pub(super) fn of(prefix: &Prefix<P>) -> Kept<P>
        ensures { result ≡ prefix.now }
    {
        Kept {
            prefix: prefix.copy(),
        }
    }

    /// A copy for the same entries.
    pub fn copy(&self) -> Kept<P>
        ensures { result ≡ self.now }
    {
        Kept::of(&self.prefix)
    }

    /// The prefix of the record.
    pub fn prefix(&self) -> &Prefix<P>
        ensures { result.now ≡ self.now }
    {
        &self.prefix
    }

    /// Returns whether the file keeps all of this prefix of the room's record.
    pub fn covers(&self, reported: &Prefix<P>) -> bool
        ensures yes { result ≡ true → IsKeptIn self.now reported.now }
        ensures no { result ≡ false → ¬ (reported.now.opening ≡ self.now.opening)
            ⊎ (length self.now.entries < length reported.now.entries) }
    {
        reported.begins(&self.prefix)
    }
}
