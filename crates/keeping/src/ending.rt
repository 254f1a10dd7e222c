//! Ending the record of a room that is nearly full, while people are in it.

ghost use Rattle.std.specs.Prelude.{◌≡◌, IfOk, IfSome};
ghost use Rattle.keeping.specs.Ended.{HasSuccessor};
ghost use Rattle.keeping.specs.steps.Successors.{IsCountOfSuccessor};

use crate::files::RoomFiles;
use crate::keeping::Keeping;
use base_types::{NoMemory, RoomName};
use journal::Journal;
use room_core::RoomState;
use room_lock::{Opening, Prefix, RoomHistories, Rooms};
use std::alloc::Global;
use std::sync::Wait;
use succession::{has_joins_for, is_nearly_full, successor_for};

/// The number of entries after which it is looked again whether a room is nearly full.
const LOOK_AGAIN: u64 = 8;

/// The number of entries after which a room is tried again that no other one can go on with.
const TRY_AGAIN: u64 = 256;

/// The number of entries of a room that this one can go on as, if there is one that has joins left
/// for so many sessions. Otherwise it would soon be nearly full itself.
fn count_of_successor(
    alloc: Global,
    room: &RoomState,
    sessions: usize,
) -> Result<Option<u32>, NoMemory>
    ensures { IfOk result (λ found. IfSome found (IsCountOfSuccessor room.now.room)) }
{
    match successor_for(alloc, room)? {
        Ok(new) if has_joins_for(&new, sessions) => Ok(Some(new.entries().len() as u32)),
        Ok(_) | Err(_) => Ok(None),
    }
}

/// Ends the record of the room of this opening, if another room can go on with it. Gives all of the
/// record then. The room's lock is held while that room is looked for.
fn end_record<P: RoomHistories>(
    rt: &impl Wait,
    alloc: Global,
    rooms: &Rooms<P>,
    opening: &Opening<P>,
) -> Result<Option<Prefix<P>>, NoMemory>
    ensures ended { IfOk result (λ found. IfSome found (λ whole. HasSuccessor whole.entries)) }
    ensures opening { IfOk result (λ found. IfSome found
        (λ whole. whole.opening ≡ opening.now)) }
{
    let sessions = rooms.count_sessions(rt, opening);
    rooms.end_by(rt, alloc, opening, |room: &RoomState| {
        count_of_successor(alloc, room, sessions)
    })
}

/// Returns whether the room of this opening is nearly full.
fn is_due<P: RoomHistories>(
    rt: &impl Wait,
    alloc: Global,
    rooms: &Rooms<P>,
    opening: &Opening<P>,
) -> bool {
    let mut is_due = false;
    let _ = rooms.end_by(rt, alloc, opening, |state: &RoomState| {
        is_due = is_nearly_full(state);
        Ok(None)
    });
    is_due
}

impl<P: RoomHistories, J: Journal + Drop, F: RoomFiles<J> + Drop> Keeping<P, J, F> {
    /// Ends the record of the room at this place, if the room is nearly full and another one can go
    /// on with it. Gives the name of that one then. It is made when it is opened, which needs a
    /// place for a room on demand. Looks only after every few entries.
    pub(crate) fn end_at(
        &self,
        rt: &impl Wait,
        alloc: Global,
        rooms: &Rooms<P>,
        place: usize,
    ) -> Option<RoomName> {
        if self.places.len() == self.first {
            return None;
        }
        let here = self.places.get(place)?;
        let opening = here.to_look_at(rt)?;
        if !is_due(rt, alloc, rooms, &opening) {
            here.look_again(rt, LOOK_AGAIN);
            return None;
        }
        here.look_again(rt, TRY_AGAIN);
        let next = here.name(rt, alloc)?.successor(alloc).ok()??;
        if !self.files.is_free(alloc, &next) {
            return None;
        }
        end_record(rt, alloc, rooms, &opening).ok()??;
        Some(next)
    }
}
