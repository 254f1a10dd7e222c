//! Rewriting a record in the current forms.

ghost use Rattle.std.specs.Prelude.{IfOk};
ghost use Rattle.wire.specs.Lines.{lines_of};
ghost use Rattle.history_check.specs.Migration.{IsMigrated};

use base_types::NoMemory;
use record_file::text_of;
use restore::{Reading, read_record};
use std::alloc::Global;

/// The result of rewriting a record.
#[derive(Debug, Drop)]
pub enum Migrated {
    /// The record's entries in the current forms, each ended by LF.
    Text(String),
    /// This line of the record, counted from 1, is the first that is no entry, or no entry that may
    /// come next.
    BadRecord(usize),
}

/// Rewrites the entries of a record in the current forms, or gives the number of the first bad
/// line. Its cost is that of adding the entries one by one.
///
/// # Errors
/// `NoMemory` if an allocation failed.
pub fn migrate(alloc: Global, entries: &[u8]) -> Result<Migrated, NoMemory>
    ensures { IfOk result (IsMigrated (lines_of entries.now)) }
{
    match read_record(alloc, entries)? {
        Reading::Bad(number) => Ok(Migrated::BadRecord(number)),
        Reading::Room(room) => Ok(Migrated::Text(text_of(alloc, room.entries())?)),
    }
}
