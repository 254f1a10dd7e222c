//! Why a command ends early, with its line on standard error and its exit status.

ghost use Rattle.std.specs.Prelude.{◌≡◌};
ghost use Rattle.command_fault.specs.declared.fault.Fault.TheVariants.{NoMemory};

use base_types::{NameFault, NoMemory};
use std::alloc::{AllocError, AllocFailed};
use std::io;
use std::io::Write;
use thiserror::Error;

/// Why a command ends early.
#[derive(Clone, Copy, Debug, Error)]
pub enum Fault {
    /// A name on the command line is no name of a room.
    #[error("bad room name")]
    BadRoomName,
    /// Two names on the command line are the same.
    #[error("room named twice")]
    RoomNamedTwice,
    /// A read failed, a file could not be opened, or it is too long.
    #[error("input failed")]
    Input,
    /// A write or a flush failed.
    #[error("output failed")]
    Output,
    /// The server could not listen on the address.
    #[error("cannot listen: {0}")]
    CannotListen(io::Error),
    /// The server could not accept a connection.
    #[error("accept failed")]
    Accept,
    /// The server could not start a worker.
    #[error("no worker")]
    NoWorker,
    /// The server could not close the rooms.
    #[error("rooms torn")]
    RoomsTorn,
    /// The client could not connect to the address.
    #[error("cannot connect: {0}")]
    CannotConnect(io::Error),
    /// The stream failed, or the server sent an unexpected message.
    #[error("session failed")]
    Session,
    /// An allocation failed.
    #[error("no memory")]
    NoMemory,
}

impl Fault {
    ghost use Rattle.command_fault.specs.steps.Faults.{status_of};

    /// The exit status: 2 for the command line, 4 for memory, 3 for anything else.
    pub fn status(self) -> u8
        ensures { result ≡ status_of self }
    {
        match self {
            Fault::BadRoomName | Fault::RoomNamedTwice => 2,
            Fault::Input
            | Fault::Output
            | Fault::CannotListen(_)
            | Fault::Accept
            | Fault::NoWorker
            | Fault::RoomsTorn
            | Fault::CannotConnect(_)
            | Fault::Session => 3,
            Fault::NoMemory => 4,
        }
    }

    /// Writes the line of the fault. Ignores a failed write.
    pub fn write_line<E: Write>(self, errors: &mut E) {
        let _ = writeln!(errors, "grace: {self}");
        let _ = errors.flush();
    }
}

impl From<AllocError> for Fault {
    ghost from_gives = { λ _ fault. fault ≡ NoMemory };

    fn from(_fault: AllocError) -> Fault {
        Fault::NoMemory
    }
}

impl<T: Drop> From<AllocFailed<T>> for Fault {
    ghost from_gives = { λ _ fault. fault ≡ NoMemory };

    fn from(_fault: AllocFailed<T>) -> Fault {
        Fault::NoMemory
    }
}

impl From<NoMemory> for Fault {
    ghost from_gives = { λ _ fault. fault ≡ NoMemory };

    fn from(_fault: NoMemory) -> Fault {
        Fault::NoMemory
    }
}

impl From<NameFault> for Fault {
    ghost use Rattle.std.specs.Prelude.{◌≡◌};
    ghost use Rattle.command_fault.specs.steps.Faults.{of_name};

    ghost from_gives = { λ fault gives. gives ≡ of_name fault };

    fn from(fault: NameFault) -> Fault {
        match fault {
            NameFault::NoMemory => Fault::NoMemory,
            NameFault::Empty | NameFault::TooLong | NameFault::BadByte(_) | NameFault::BadNumber =>
                Fault::BadRoomName,
        }
    }
}
