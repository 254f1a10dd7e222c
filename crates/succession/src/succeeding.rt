//! How a room that is nearly full goes on as another one.

ghost use Rattle.std.specs.Prelude.{IfOk, IfSome};
ghost use Rattle.succession.specs.Succession.{Follows, IsSuccession, IsSuccessor};
ghost use Rattle.succession.specs.steps.Ends.{EndsWith};

use crate::usage::is_roomy;
use base_types::NoMemory;
use renewal::{Reason, Renewal, renewed};
use room_core::RoomState;
use rules::Entry;
use std::alloc::Global;
use thiserror::Error;

/// Why a room that is nearly full goes on as it is.
#[derive(Clone, Copy, Debug, PartialEq, Eq, Error)]
pub enum Obstacle {
    /// No renewed record was found.
    #[error("{0}")]
    NotRenewed(Reason),
    /// The new record would soon be as full.
    #[error("the new record has more than three quarters of a limit")]
    NotRoomy,
    /// No entry may be added.
    #[error("no entry is left for the end of its record")]
    Full,
    /// The next room of the chain would have no name.
    #[error("the name of the next room would be too long")]
    NoName,
    /// The file of the next room of the chain has something.
    #[error("the file of the next room is there")]
    NotFree,
}

/// What a room goes on as.
#[derive(Drop)]
pub enum Succession {
    /// As another room.
    Renewed {
        /// The room, which has ended.
        old: RoomState,
        /// The room that it goes on as.
        new: RoomState,
    },
    /// As it is.
    Declined(RoomState, Obstacle),
}

/// A room that this one can go on as: it draws the same, and has a quarter left of each limit. Its
/// cost is that of `renewed`.
///
/// # Errors
/// `NoMemory` if an allocation failed.
pub fn successor_for(
    alloc: Global,
    room: &RoomState,
) -> Result<Result<RoomState, Obstacle>, NoMemory>
    ensures { IfOk result (λ found. IfOk found (λ new. IsSuccessor room.now.room new.room)) }
{
    match renewed(alloc, room)? {
        Renewal::Room(new) if is_roomy(&new) => Ok(Ok(new)),
        Renewal::Room(_) => Ok(Err(Obstacle::NotRoomy)),
        Renewal::Declined(reason) => Ok(Err(Obstacle::NotRenewed(reason))),
    }
}

/// Ends a room that goes on as another one, by `successor_for`: the record gets one more entry,
/// with the number of entries of the other. Declines if no such room is found, or if the record is
/// full.
///
/// # Errors
/// `NoMemory` if an allocation failed.
pub fn succeed(alloc: Global, room: RoomState) -> Result<Succession, NoMemory>
    ensures { IfOk result (IsSuccession room.room) }
{
    match successor_for(alloc, &room)? {
        Ok(new) => succeed_as(alloc, room, new),
        Err(obstacle) => Ok(Succession::Declined(room, obstacle)),
    }
}

/// Ends the old room, which goes on as the new one. Declines if the record is full.
fn succeed_as(alloc: Global, room: RoomState, new: RoomState) -> Result<Succession, NoMemory>
    requires { IsSuccessor room.room new.room }
    ensures { IfOk result (IsSuccession room.room) }
{
    let count = new.entries().len() as u32;
    let mut old = room;
    if old.end(alloc, count)? {
        Ok(Succession::Renewed { old, new })
    } else {
        Ok(Succession::Declined(old, Obstacle::Full))
    }
}

/// The number of entries that the end of a record names: `None` if it has not ended.
fn count_at_end(room: &RoomState) -> Option<u32>
    ensures { IfSome result (EndsWith room.now.room.entries) }
{
    match room.entries().last() {
        Some(last) => match &**last {
            Entry::Next(count) => Some(*count),
            Entry::Join(_) | Entry::Operation(_) => None,
        },
        None => None,
    }
}

/// The room that one which has ended goes on as. It draws the same, and has as many entries as the
/// end names. `None` if the room has not ended, or no such room is found. Its cost is that of
/// `renewed`.
///
/// # Errors
/// `NoMemory` if an allocation failed.
pub fn successor_of(alloc: Global, old: &RoomState) -> Result<Option<RoomState>, NoMemory>
    ensures { IfOk result (λ found. IfSome found (λ new. Follows old.now.room new.room)) }
{
    let Some(count) = count_at_end(old) else {
        return Ok(None);
    };
    match renewed(alloc, old)? {
        Renewal::Room(new) if new.entries().len() == count as usize => Ok(Some(new)),
        Renewal::Room(_) | Renewal::Declined(_) => Ok(None),
    }
}
