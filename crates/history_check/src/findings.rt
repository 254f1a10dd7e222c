//! Faults of a transcript's lines, each judged by itself.

ghost use Rattle.std.specs.Prelude.{◌≡◌, ◌≤◌, All, IfOk, length, map};
ghost use Rattle.std.specs.Arc.{arc_value};
ghost use Rattle.rules.specs.Limits.{full_limits};
ghost use Rattle.rules.specs.Records.{IsLegal};
ghost use Rattle.wire.specs.Replies.{at_of};
ghost use Rattle.history_check.specs.steps.Findings.{AreFindings, IsFirstFault, first_in};

use crate::line_fault::fault_of;
use crate::replay::{advance, by_time};
use base_types::NoMemory;
use room_core::{Limits, RoomState};
use rules::Entry;
use std::alloc::Global;
use std::sync::Arc;
use transcript::TranscriptLine;

/// A fault of a line, whatever the other lines are.
#[derive(Clone, Copy, Debug, PartialEq, Eq)]
pub(crate) enum Fault {
    /// The line's site has not joined by then.
    NotJoined,
    /// The rules give another reply, or add another entry than the record has there.
    WrongReply,
}

/// The fault of each line, in order. The lines are judged by rising AT, so the record is played
/// once.
fn find_all(
    alloc: Global,
    entries: &[Arc<Entry>],
    lines: &[TranscriptLine],
) -> Result<Vec<Option<Fault>>, NoMemory>
    requires legal { IsLegal full_limits (map arc_value entries.now) }
    requires within { All (λ line. at_of line.reply ≤ length entries.now) lines.now }
    ensures { IfOk result (λ findings.
        AreFindings (map arc_value entries.now) lines.now findings.items) }
{
    let mut findings = vec![in alloc; None; lines.len()]?;
    let mut room = RoomState::new(alloc, Limits::full())?;
    let order = by_time(alloc, lines)?;
    for timed in &order {
        let (at, place) = *timed;
        advance(alloc, &mut room, entries, at as usize)?;
        findings[place] = fault_of(alloc, &mut room, entries, &lines[place])?;
    }
    Ok(findings)
}

/// The first fault in the list, with its place.
fn first_of(findings: &[Option<Fault>]) -> Option<(usize, Fault)>
    ensures { result ≡ first_in findings.now }
{
    for place in 0..findings.len() {
        if let Some(fault) = findings[place] {
            return Some((place, fault));
        }
    }
    None
}

/// The first line with a fault, by its place from 0, and the fault.
pub(crate) fn first_fault(
    alloc: Global,
    entries: &[Arc<Entry>],
    lines: &[TranscriptLine],
) -> Result<Option<(usize, Fault)>, NoMemory>
    requires legal { IsLegal full_limits (map arc_value entries.now) }
    requires within { All (λ line. at_of line.reply ≤ length entries.now) lines.now }
    ensures { IfOk result (IsFirstFault (map arc_value entries.now) lines.now) }
{
    let findings = find_all(alloc, entries, lines)?;
    Ok(first_of(&findings))
}
