//! Why a room cannot be shown.

use base_types::NoMemory;
use command_fault::Fault;
use late_join::{FeedFault, TakeFault};
use std::alloc::AllocError;
use thiserror::Error;
use wire_reader::ReadFault;

/// Why a room cannot be shown.
#[derive(Clone, Copy, Debug, PartialEq, Eq, Error)]
pub enum WatchFault {
    /// The stream failed, or the server sent an unexpected message.
    #[error("the session failed")]
    Session,
    /// The output failed.
    #[error("the output can't be written")]
    Write,
    /// An allocation failed.
    #[error("out of memory")]
    NoMemory,
}

impl From<AllocError> for WatchFault {
    fn from(_fault: AllocError) -> WatchFault {
        WatchFault::NoMemory
    }
}

impl From<NoMemory> for WatchFault {
    fn from(_fault: NoMemory) -> WatchFault {
        WatchFault::NoMemory
    }
}

impl From<tungstenite::Error> for WatchFault {
    fn from(fault: tungstenite::Error) -> WatchFault {
        match fault {
            tungstenite::Error::OutOfMemory => WatchFault::NoMemory,
            _ => WatchFault::Session,
        }
    }
}

impl From<ReadFault> for WatchFault {
    fn from(fault: ReadFault) -> WatchFault {
        match fault {
            ReadFault::Bad => WatchFault::Session,
            ReadFault::NoMemory => WatchFault::NoMemory,
        }
    }
}

impl From<TakeFault> for WatchFault {
    fn from(fault: TakeFault) -> WatchFault {
        match fault {
            TakeFault::NoMemory => WatchFault::NoMemory,
            _ => WatchFault::Session,
        }
    }
}

impl From<FeedFault> for WatchFault {
    fn from(fault: FeedFault) -> WatchFault {
        match fault {
            FeedFault::NoMemory => WatchFault::NoMemory,
            FeedFault::Take { place: _, fault } => WatchFault::from(fault),
            FeedFault::NotAPage => WatchFault::Session,
        }
    }
}

impl From<WatchFault> for Fault {
    ghost use Rattle.std.specs.Prelude.{◌≡◌};
    ghost use Rattle.room_watch.specs.steps.Faults.{of_watching};

    ghost from_gives = { λ fault gives. gives ≡ of_watching fault };

    fn from(fault: WatchFault) -> Fault {
        match fault {
            WatchFault::Session => Fault::Session,
            WatchFault::Write => Fault::Output,
            WatchFault::NoMemory => Fault::NoMemory,
        }
    }
}
