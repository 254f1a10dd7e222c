//! Renewing a room.

ghost use Rattle.std.specs.Prelude.{◌≡◌, IfOk};
ghost use Rattle.renewal.specs.Drawn.{drawn};
ghost use Rattle.renewal.specs.Renewed.{IsRenewed};

use crate::certificate::certify_drawing;
use crate::drawings::drawing_of;
use crate::entries::entries_of;
use crate::picture::Picture;
use crate::reason::{Reason, WritingFault};
use base_types::NoMemory;
use room_core::RoomState;
use rules::Entry;
use std::alloc::Global;

/// The result of renewing a room.
#[derive(Drop)]
pub enum Renewal {
    /// A room that draws what the old one draws. Its record is no longer than the old one.
    Room(RoomState),
    /// No renewed record was found.
    Declined(Reason),
}

/// Renews a room. What is drawn determines the new record, so a renewal of the new room gives the
/// same entries. Its cost is that of showing each object of both rooms once and of adding the new
/// entries.
///
/// The clause says that a room in the result is a renewal. That one is found, tests show.
///
/// # Errors
/// `NoMemory` if an allocation failed.
pub fn renewed(alloc: Global, old: &RoomState) -> Result<Renewal, NoMemory>
    ensures { IfOk result (IsRenewed old.now.room.entries) }
{
    let pictures = drawing_of(alloc, old)?;
    match entries_of(alloc, &pictures) {
        Ok(entries) => renewed_by(alloc, old, &pictures, &entries),
        Err(WritingFault::Declined(reason)) => Ok(Renewal::Declined(reason)),
        Err(WritingFault::NoMemory) => Err(NoMemory),
    }
}

/// The room with these entries, if they are no more than those of the old room and draw this, which
/// the old room draws.
fn renewed_by(
    alloc: Global,
    old: &RoomState,
    pictures: &[Picture],
    entries: &[Entry],
) -> Result<Renewal, NoMemory>
    requires { pictures.now ≡ drawn old.now.room.entries }
    ensures { IfOk result (IsRenewed old.now.room.entries) }
{
    if entries.len() > old.entries().len() {
        return Ok(Renewal::Declined(Reason::TooLong));
    }
    match certify_drawing(alloc, pictures, entries)? {
        Some(room) => Ok(Renewal::Room(room)),
        None => Ok(Renewal::Declined(Reason::Refused)),
    }
}
