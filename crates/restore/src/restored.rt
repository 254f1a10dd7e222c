//! Reading a room's file at the start.

ghost use Rattle.std.specs.Prelude.{◌≡◌, IfOk};
ghost use Rattle.restore.specs.Restoring.{IsRestored};

use crate::record::{Reading, read_record};
use base_types::NoMemory;
use record_file::whole_len;
use room_core::RoomState;
use std::alloc::Global;

/// The result of reading a room's file.
#[derive(Drop)]
pub enum Restored {
    /// The file's whole lines are a legal record.
    Room {
        /// The room with this record.
        room: RoomState,
        /// The number of bytes in the whole lines. Bytes behind them are the start of an incomplete
        /// line.
        whole: usize,
    },
    /// The whole lines are no legal record. This line, counted from 1, is the first that is no
    /// entry that may come next.
    Bad(usize),
}

/// The room whose record the whole lines of a file are, or the number of the first bad line. Its
/// cost is that of adding the entries one by one.
///
/// # Errors
/// `NoMemory` if an allocation failed.
pub fn restore(alloc: Global, bytes: &[u8]) -> Result<Restored, NoMemory>
    ensures { IfOk result (IsRestored bytes.now) }
{
    let whole = whole_len(bytes);
    match read_record(alloc, &bytes[..whole])? {
        Reading::Room(room) => Ok(Restored::Room { room, whole }),
        Reading::Bad(number) => Ok(Restored::Bad(number)),
    }
}
