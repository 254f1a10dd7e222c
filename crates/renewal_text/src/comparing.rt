//! Comparing what two records draw.

ghost use Rattle.std.specs.Prelude.{IfOk, List, ℕ};
ghost use Rattle.wire.specs.Lines.{lines_of};
ghost use Rattle.renewal_text.specs.Comparing.{IsComparison};
ghost use Rattle.renewal_text.specs.steps.Comparing.{AreCompared};
ghost use Rattle.restore.specs.Records.{AreRecord};

use base_types::NoMemory;
use renewal::{drawing_of, draws};
use restore::{Reading, read_record};
use room_core::RoomState;
use std::alloc::Global;

/// The result of comparing two records. Lines count from 1.
#[derive(Clone, Copy, Debug, PartialEq, Eq)]
pub enum Comparison {
    /// Both are records, and the new one draws what the old one draws.
    Holds,
    /// The first line of the old record that is no entry, or no entry that may come next.
    BadRecord(usize),
    /// The old record is legal. This is the first line of the new one that is no entry, or no entry
    /// that may come next.
    BadNewRecord(usize),
    /// Both are records, and they draw something different.
    Differs,
}

/// Compares what the records of these bytes draw: objects in order of creation, with their kinds
/// and their versions in order. Its cost is that of adding the entries of both one by one, and of
/// showing each object of both once.
///
/// # Errors
/// `NoMemory` if an allocation failed.
pub fn compare(alloc: Global, old: &[u8], new: &[u8]) -> Result<Comparison, NoMemory>
    ensures { IfOk result (IsComparison (lines_of old.now) (lines_of new.now)) }
{
    match read_record(alloc, old)? {
        Reading::Bad(number) => Ok(Comparison::BadRecord(number)),
        Reading::Room(old) => compare_with(alloc, &old, new),
    }
}

/// Compares what a legal record and the record of these bytes draw.
fn compare_with(alloc: Global, old: &RoomState, new: &[u8]) -> Result<Comparison, NoMemory>
    ensures { IfOk result (λ found. (lines : List (List ℕ)) → AreRecord lines old.now.room.entries
        → IsComparison lines (lines_of new.now) found) }
{
    match read_record(alloc, new)? {
        Reading::Bad(number) => Ok(Comparison::BadNewRecord(number)),
        Reading::Room(new) => compare_rooms(alloc, old, &new),
    }
}

/// Compares what two records draw.
fn compare_rooms(alloc: Global, old: &RoomState, new: &RoomState) -> Result<Comparison, NoMemory>
    ensures { IfOk result (λ found. AreCompared old.now.room.entries new.now.room.entries found) }
{
    if draws(alloc, new, &drawing_of(alloc, old)?)? {
        Ok(Comparison::Holds)
    } else {
        Ok(Comparison::Differs)
    }
}
