//! What all sessions of one server share.

ghost use Rattle.std.specs.Prelude.{◌≡◌, IfOk};
ghost use Rattle.sessions.specs.steps.Confined.{scope_for};

use crate::chime::Chime;
use base_types::NoMemory;
use loops::Bell;
use room_lock::{RoomHistories, Rooms};
use scope::Scope;
use std::alloc::Global;

/// What sessions are served with: the runtime, the allocator, the rooms, the observer, the keeper,
/// the bell and the chime, and whether each session is confined to one room.
#[derive(Drop)]
pub struct Host<'a, P: RoomHistories, R, O, K> {
    /// The runtime.
    pub rt: &'a R,
    /// The allocator.
    pub alloc: Global,
    /// The rooms that sessions call.
    pub rooms: &'a Rooms<P>,
    /// The observer that hears of the calls.
    pub observer: &'a O,
    /// The keeper of what replies report.
    pub keeper: &'a K,
    /// The bell that wakes the loops of a room in which sessions wait for entries.
    pub bell: &'a Bell,
    /// The chime that rings the bell for changes of notes.
    pub chime: &'a Chime,
    /// A session may enter only the room of its request's path.
    pub is_confining: bool,
}

impl<P: RoomHistories, R, O, K> Host<'_, P, R, O, K> {
    /// The scope of a session whose request has this target. Linear in the target.
    ///
    /// # Errors
    /// `NoMemory` if an allocation failed.
    pub(crate) fn scope_of(&self, target: &[u8]) -> Result<Scope, NoMemory>
        ensures { IfOk result (λ scope. scope ≡ scope_for self.now.is_confining target.now) }
    {
        if self.is_confining {
            Scope::of_target(self.alloc, target)
        } else {
            Ok(Scope::Anywhere)
        }
    }
}
