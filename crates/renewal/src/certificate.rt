//! The certificate of a renewal.

ghost use Rattle.std.specs.Prelude.{◌≡◌, ◌↔◌, IfOk, IfSome, IsSome, IsTrue, Ok, true};
ghost use Rattle.rules.specs.Limits.{full_limits};
ghost use Rattle.rules.specs.Records.{IsLegal};
ghost use Rattle.room_core.specs.Room.{empty_room, full_room};
ghost use Rattle.renewal.specs.Drawn.{drawn};
ghost use Rattle.renewal.specs.Renewed.{IsRenewal};

use crate::drawings::{drawing_of, draws};
use crate::picture::Picture;
use base_types::NoMemory;
use room_core::{Limits, RoomState};
use rules::Entry;
use std::alloc::Global;

/// Adds the entries to a new room, up to the first that may not come next. Returns whether there was
/// none.
fn accept_all(alloc: Global, room: &mut RoomState, entries: &[Entry]) -> Result<bool, NoMemory>
    requires { room.old.room ≡ empty_room full_limits }
    ensures room { result ≡ Ok true → room.new.room ≡ full_room entries.now }
    ensures legal { IfOk result (λ taken. IsTrue taken ↔ IsLegal full_limits entries.now) }
{
    for entry in entries {
        if !room.accept(alloc, entry)? {
            return Ok(false);
        }
    }
    Ok(true)
}

/// The room with this record under full limits, or `None` if it is not legal.
fn replay(alloc: Global, entries: &[Entry]) -> Result<Option<RoomState>, NoMemory>
    ensures room { IfOk result (λ found. IfSome found (λ room. room.room ≡ full_room entries.now)) }
    ensures legal { IfOk result (λ found. IsSome found ↔ IsLegal full_limits entries.now) }
{
    let mut room = RoomState::new(alloc, Limits::full())?;
    if accept_all(alloc, &mut room, entries)? {
        Ok(Some(room))
    } else {
        Ok(None)
    }
}

/// The room if it draws exactly this.
fn if_it_draws(
    alloc: Global,
    room: RoomState,
    pictures: &[Picture],
) -> Result<Option<RoomState>, NoMemory>
    ensures room { IfOk result (λ found. IfSome found (λ same. same ≡ room)) }
    ensures exact { IfOk result (λ found. IsSome found ↔ (drawn room.room.entries ≡ pictures.now)) }
{
    if draws(alloc, &room, pictures)? {
        Ok(Some(room))
    } else {
        Ok(None)
    }
}

/// The room with this record, or `None` if it is not legal or does not draw exactly this.
pub(crate) fn certify_drawing(
    alloc: Global,
    pictures: &[Picture],
    entries: &[Entry],
) -> Result<Option<RoomState>, NoMemory>
    ensures room { IfOk result (λ found. IfSome found (λ room. room.room ≡ full_room entries.now)) }
    ensures exact { IfOk result (λ found. IsSome found
        ↔ (IsLegal full_limits entries.now × (drawn entries.now ≡ pictures.now))) }
{
    match replay(alloc, entries)? {
        Some(room) => if_it_draws(alloc, room, pictures),
        None => Ok(None),
    }
}

/// The room with these entries if they are a renewal of the old room's record: legal under full
/// limits, and drawing the same objects with the same versions in the same order. `None` if they
/// are no renewal. Its cost is that of adding the entries and of showing each object of both rooms.
///
/// # Errors
/// `NoMemory` if an allocation failed.
pub fn certify(
    alloc: Global,
    old: &RoomState,
    entries: &[Entry],
) -> Result<Option<RoomState>, NoMemory>
    ensures room { IfOk result (λ found. IfSome found (λ new. new.room ≡ full_room entries.now)) }
    ensures exact { IfOk result (λ found. IsSome found
        ↔ IsRenewal old.now.room.entries entries.now) }
{
    let pictures = drawing_of(alloc, old)?;
    certify_drawing(alloc, &pictures, entries)
}
