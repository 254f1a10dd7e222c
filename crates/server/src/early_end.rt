//! Why `grace serve` ends early, with its line on standard error and its exit status.

ghost use Rattle.std.specs.Prelude.{◌≡◌};

use base_types::NoMemory;
use command_fault::Fault;
use room_folder::FolderFault;
use std::alloc::{AllocError, AllocFailed};
use std::io::Write;
use thiserror::Error;

/// Why `grace serve` ends early, with the words of its line.
#[derive(Debug, Drop, Error)]
pub(crate) enum EarlyEnd<'a> {
    #[error("{0}")]
    Fault(Fault),
    /// The folder cannot keep the rooms.
    #[error("{0}")]
    Folder(FolderFault<'a>),
    /// A room's file accepted no more.
    #[error("room not kept")]
    NotKept,
}

impl EarlyEnd<'_> {
    ghost use Rattle.server.specs.steps.Ends.{status_of_end};

    /// The exit status: that of the fault, 4 if the folder's fault is want of memory, otherwise 3.
    pub(crate) fn status(&self) -> u8
        ensures { result ≡ status_of_end self.now }
    {
        match self {
            EarlyEnd::Fault(fault) => fault.status(),
            EarlyEnd::Folder(FolderFault::NoMemory) => Fault::NoMemory.status(),
            EarlyEnd::Folder(_) | EarlyEnd::NotKept => 3,
        }
    }

    /// Writes the line of the fault. Ignores a failed write.
    pub(crate) fn write_line<E: Write>(&self, errors: &mut E) {
        let _ = writeln!(errors, "grace: {self}");
        let _ = errors.flush();
    }
}

impl From<Fault> for EarlyEnd<'_> {
    fn from(fault: Fault) -> Self {
        EarlyEnd::Fault(fault)
    }
}

impl<'a> From<FolderFault<'a>> for EarlyEnd<'a> {
    fn from(fault: FolderFault<'a>) -> Self {
        EarlyEnd::Folder(fault)
    }
}

impl From<NoMemory> for EarlyEnd<'_> {
    fn from(_fault: NoMemory) -> Self {
        EarlyEnd::Fault(Fault::NoMemory)
    }
}

impl From<AllocError> for EarlyEnd<'_> {
    fn from(_fault: AllocError) -> Self {
        EarlyEnd::Fault(Fault::NoMemory)
    }
}

impl<T: Drop> From<AllocFailed<T>> for EarlyEnd<'_> {
    fn from(_fault: AllocFailed<T>) -> Self {
        EarlyEnd::Fault(Fault::NoMemory)
    }
}
