//! The fault of one line, in the room as it was at that line.

ghost use Rattle.std.specs.Prelude.{◌≡◌, ◌↔◌, true, IfOk, IsTrue, map, option_map, slice_get};
ghost use Rattle.std.specs.Arc.{arc_value};
ghost use Rattle.room_core.specs.steps.Plans.{Plans, outcome};
ghost use Rattle.wire.specs.Replies.{adds, at_of};
ghost use Rattle.history_check.specs.steps.Findings.{IsFinding};
ghost use Rattle.history_check.specs.Transcripts.{IsGiven, due, has_asker, may_ask, room_at_line};

use crate::findings::Fault;
use base_types::NoMemory;
use room_core::{Planned, RoomState};
use rules::Entry;
use std::alloc::Global;
use std::sync::Arc;
use transcript::{TranscriptLine, is_join_request};
use wire::Request;

/// Returns whether the line is a join, or its site has joined.
fn may_ask(room: &RoomState, line: &TranscriptLine) -> bool
    ensures { result ≡ may_ask room.now.room line.now }
{
    is_join_request(&line.request) || (line.site >= 1 && line.site <= room.sites())
}

/// Returns whether a join names the next site, and any other request a site that has joined.
fn has_asker(room: &RoomState, line: &TranscriptLine) -> bool
    ensures { result ≡ has_asker room.now.room line.now }
{
    if is_join_request(&line.request) {
        line.site == room.sites() + 1
    } else {
        line.site >= 1 && line.site <= room.sites()
    }
}

/// Plans the answer of the rules to the line's request. The room is unchanged.
fn plan_line(
    alloc: Global,
    room: &mut RoomState,
    line: &TranscriptLine,
) -> Result<Planned, NoMemory>
    ensures { Plans room.old room.new (due room.old.room line.now) result }
{
    match &line.request {
        Request::Join { .. } => room.plan_join(alloc),
        Request::Back { .. } => Ok(Planned::of_reply(room.back(line.site, false))),
        request => {
            let request = request.copy(alloc)?;
            room.plan(alloc, line.site, request)
        }
    }
}

/// Returns whether the record has this entry at this place, or, for `None`, no entry there.
fn has_at(entries: &[Arc<Entry>], place: usize, wanted: Option<&Arc<Entry>>) -> bool
    ensures { IsTrue result ↔ (slice_get (map arc_value entries.now) place
        ≡ option_map (λ e. arc_value e.now) wanted.entry) }
{
    match wanted {
        Some(entry) => place < entries.len() && *entries[place] == **entry,
        None => place >= entries.len(),
    }
}

/// Returns whether the plan gives the line's reply, and the record has the planned entry at its
/// place.
fn is_given(planned: &Planned, entries: &[Arc<Entry>], line: &TranscriptLine) -> bool
    ensures { IsTrue result ↔ IsGiven (map arc_value entries.now) (outcome planned.now) line.now }
{
    if *planned.reply() != line.reply {
        return false;
    }
    let place = line.reply.at() as usize;
    !line.reply.adds() || has_at(entries, place, planned.entry())
}

/// The fault of a line, if it has one, in the room as it was at that line. The room is unchanged.
pub(crate) fn fault_of(
    alloc: Global,
    room: &mut RoomState,
    entries: &[Arc<Entry>],
    line: &TranscriptLine,
) -> Result<Option<Fault>, NoMemory>
    requires { room.old.room ≡ room_at_line (map arc_value entries.now) line.now }
    ensures finding { IfOk result (IsFinding (map arc_value entries.now) line.now) }
    ensures room { room.new.room ≡ room.old.room }
{
    if !may_ask(room, line) {
        return Ok(Some(Fault::NotJoined));
    }
    if !has_asker(room, line) {
        return Ok(Some(Fault::WrongReply));
    }
    let planned = plan_line(alloc, room, line)?;
    if is_given(&planned, entries, line) {
        Ok(None)
    } else {
        Ok(Some(Fault::WrongReply))
    }
}
