//! Renewing a record.

ghost use Rattle.std.specs.Prelude.{IfOk, List, ℕ};
ghost use Rattle.wire.specs.Lines.{lines_of};
ghost use Rattle.renewal_text.specs.Renewing.{IsRenewedText};
ghost use Rattle.restore.specs.Records.{AreRecord};

use base_types::NoMemory;
use record_file::text_of;
use renewal::{Reason, Renewal, renewed};
use restore::{Reading, read_record};
use room_core::RoomState;
use std::alloc::Global;

/// The result of renewing a record.
#[derive(Debug, Drop)]
pub enum RenewedText {
    /// The entries of a record that draws what the old one draws, each ended by LF. They are no
    /// more than those of the old one.
    Text(String),
    /// This line of the record, counted from 1, is the first that is no entry, or no entry that may
    /// come next.
    BadRecord(usize),
    /// The record is legal, and no renewed one was found.
    Declined(Reason),
}

/// Renews the record of these bytes, or gives the number of its first bad line. Its cost is that of
/// adding the entries one by one, and of showing each object twice.
///
/// # Errors
/// `NoMemory` if an allocation failed.
pub fn renew(alloc: Global, entries: &[u8]) -> Result<RenewedText, NoMemory>
    ensures { IfOk result (IsRenewedText (lines_of entries.now)) }
{
    match read_record(alloc, entries)? {
        Reading::Bad(number) => Ok(RenewedText::BadRecord(number)),
        Reading::Room(old) => text_of_renewed(alloc, &old),
    }
}

/// Renews a legal record.
fn text_of_renewed(alloc: Global, old: &RoomState) -> Result<RenewedText, NoMemory>
    ensures { IfOk result (λ found. (lines : List (List ℕ)) → AreRecord lines old.now.room.entries
        → IsRenewedText lines found) }
{
    match renewed(alloc, old)? {
        Renewal::Room(new) => text_of(alloc, new.entries()).map(RenewedText::Text),
        Renewal::Declined(reason) => Ok(RenewedText::Declined(reason)),
    }
}
