//! Playing a record again beside the lines of a transcript.

ghost use Rattle.std.specs.Prelude.{◌≡◌, ◌≤◌, IfOk, OnOk, length, map, take};
ghost use Rattle.std.specs.Arc.{arc_value};
ghost use Rattle.rules.specs.Limits.{full_limits};
ghost use Rattle.rules.specs.Records.{IsLegal};
ghost use Rattle.room_core.specs.Room.{full_room};
ghost use Rattle.history_check.specs.steps.Replays.{AreByTime, IsRoomOfPrefix};

use base_types::NoMemory;
use room_core::RoomState;
use rules::Entry;
use std::alloc::Global;
use std::sync::Arc;
use transcript::TranscriptLine;

/// Adds the entries of a legal record to the room, up to the first `at`. Linear in the entries that
/// are added.
pub(crate) fn advance(
    alloc: Global,
    room: &mut RoomState,
    entries: &[Arc<Entry>],
    at: usize,
) -> Result<(), NoMemory>
    requires legal { IsLegal full_limits (map arc_value entries.now) }
    requires prefix { IsRoomOfPrefix (map arc_value entries.now) room.old.room }
    requires later { length room.old.room.entries ≤ at }
    requires within { at ≤ length entries.now }
    ensures { OnOk result (room.new.room ≡ full_room (take at (map arc_value entries.now))) }
{
    for place in room.entries().len()..at {
        room.accept(alloc, &entries[place])?;
    }
    Ok(())
}

/// For each line its AT and its place from 0, by rising AT. Takes n log n steps for n lines.
pub(crate) fn by_time(
    alloc: Global,
    lines: &[TranscriptLine],
) -> Result<Vec<(u32, usize)>, NoMemory>
    ensures { IfOk result (λ order. AreByTime lines.now order.items) }
{
    let mut order = Vec::with_capacity(alloc, lines.len())?;
    for place in 0..lines.len() {
        order.push((lines[place].reply.at(), place))?;
    }
    order.sort()?;
    Ok(order)
}
