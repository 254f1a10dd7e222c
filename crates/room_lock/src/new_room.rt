//! Rooms that are to be opened.

ghost use Rattle.std.specs.Prelude.{◌≡◌, [], All, IfOk, length};

use base_types::{NoMemory, RoomName};
use room_core::RoomState;
use rules::Limits;
use std::alloc::Global;

/// A room that is to be opened: its place among the rooms, its name, and the record that it begins
/// with.
#[derive(Drop)]
pub(crate) struct NewRoom {
    pub(crate) place: usize,
    pub(crate) name: RoomName,
    pub(crate) state: RoomState,
}

/// `count` rooms of these limits with empty records.
pub(crate) fn empty_states(
    alloc: Global,
    limits: Limits,
    count: usize,
) -> Result<Vec<RoomState>, NoMemory>
    ensures count { IfOk result (λ states. length states.items ≡ count) }
    ensures limits { IfOk result (λ states.
        All (λ state. state.room.limits ≡ limits) states.items) }
    ensures empty { IfOk result (λ states. All (λ state. state.room.entries ≡ []) states.items) }
{
    let mut states = Vec::with_capacity(alloc, count)?;
    for _place in 0..count {
        states.push(RoomState::new(alloc, limits)?)?;
    }
    Ok(states)
}
