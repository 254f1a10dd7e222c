//! The verdict on a record and a transcript of it.

ghost use Rattle.std.specs.Prelude.{◌≡◌, ◌↔◌, IfOk, map};
ghost use Rattle.std.specs.Arc.{arc_value};
ghost use Rattle.rules.specs.Limits.{full_limits};
ghost use Rattle.rules.specs.Records.{IsLegal};
ghost use Rattle.wire.specs.Lines.{lines_of};
ghost use Rattle.history_check.specs.declared.verdict.Verdict.TheVariants.{Holds};
ghost use Rattle.history_check.specs.Verdicts.{AreTrue, IsVerdict, IsVerdictOn};

use crate::findings::{Fault, first_fault};
use base_types::NoMemory;
use restore::{Reading, read_record};
use rules::Entry;
use std::alloc::Global;
use std::sync::Arc;
use transcript::OrderedPart;

/// The verdict on a record and a transcript. Lines count from 1.
#[derive(Clone, Copy, Debug, PartialEq, Eq)]
pub enum Verdict {
    /// The record is legal, and the transcript is true of it.
    Holds,
    /// The first line of the record that is no entry, or no entry that may come next.
    BadRecord(usize),
    /// The first line of the transcript that is not in form, or may not follow the lines before it.
    BadTranscript(usize),
    /// The first line of the transcript whose reply is not that of the rules, or whose entry is not
    /// in the record at its place.
    WrongReply(usize),
}

/// Checks that the record is legal and the transcript true of it, and returns the verdict. A fault
/// of the record comes before any fault of the transcript.
/// The cost is that of adding the entries twice and answering the transcript's requests once.
/// Ordering n lines takes n log n steps.
///
/// # Errors
/// `NoMemory` if an allocation failed.
pub fn check(alloc: Global, entries: &[u8], transcript: &[u8]) -> Result<Verdict, NoMemory>
    ensures verdict { IfOk result (IsVerdict entries.now transcript.now) }
    ensures holds { IfOk result
        (λ verdict. (verdict ≡ Holds) ↔ AreTrue entries.now transcript.now) }
{
    match read_record(alloc, entries)? {
        Reading::Bad(number) => Ok(Verdict::BadRecord(number)),
        Reading::Room(room) => check_transcript(alloc, room.entries(), transcript),
    }
}

/// The verdict on a transcript of this legal record.
fn check_transcript(
    alloc: Global,
    entries: &[Arc<Entry>],
    transcript: &[u8],
) -> Result<Verdict, NoMemory>
    requires { IsLegal full_limits (map arc_value entries.now) }
    ensures { IfOk result (IsVerdictOn (map arc_value entries.now) (lines_of transcript.now)) }
{
    let part = OrderedPart::read(alloc, entries.len(), transcript)?;
    match first_fault(alloc, entries, part.lines())? {
        Some((place, Fault::NotJoined)) => Ok(Verdict::BadTranscript(place + 1)),
        Some((place, Fault::WrongReply)) => Ok(Verdict::WrongReply(place + 1)),
        None if part.is_stopped() => Ok(Verdict::BadTranscript(part.lines().len() + 1)),
        None => Ok(Verdict::Holds),
    }
}
