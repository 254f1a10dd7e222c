//! Why a call of a journal fails.

ghost use Rattle.std.specs.Prelude.{◌≡◌};
ghost use Rattle.std.specs.IoError.{error_kind};
ghost use Rattle.journal.specs.steps.Faults.{fault_of_kind};
ghost use Rattle.journal.specs.declared.fault.JournalFault.TheVariants as journal_fault;

use base_types::NoMemory;
use std::io;
use std::io::ErrorKind;
use thiserror::Error;

/// Why a call of a journal failed. After `Full` or `Failed` the file may hold unknown bytes behind
/// those that are kept. A caller cuts the journal before it appends again.
#[derive(Clone, Copy, Debug, PartialEq, Eq, Error)]
pub enum JournalFault {
    /// An allocation failed. The journal is unchanged.
    #[error("out of memory")]
    NoMemory,
    /// The disk is full: the system returned ENOSPC.
    #[error("the disk is full")]
    Full,
    /// A write, a sync or a cut failed for another reason.
    #[error("the file took no more")]
    Failed,
}

impl JournalFault {
    /// The fault for an error of the system.
    pub(crate) fn of_error(error: &io::Error) -> JournalFault
        ensures { result ≡ fault_of_kind (error_kind error.now) }
    {
        match error.kind() {
            ErrorKind::StorageFull => JournalFault::Full,
            _ => JournalFault::Failed,
        }
    }
}

impl From<NoMemory> for JournalFault {
    ghost from_gives = { λ _ fault. fault ≡ journal_fault.NoMemory };

    fn from(_fault: NoMemory) -> JournalFault {
        JournalFault::NoMemory
    }
}
