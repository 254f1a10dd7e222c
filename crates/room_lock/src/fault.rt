//! Why rooms cannot be closed, and why a room does not answer.

ghost use Rattle.std.specs.Prelude.{◌≡◌};
ghost use Rattle.room_lock.specs.declared.fault.CallFault.TheVariants as call_fault;
ghost use Rattle.room_lock.specs.declared.fault.CloseFault.TheVariants as close_fault;

use base_types::{NoMemory, RoomName};
use thiserror::Error;

/// Why rooms cannot be closed.
#[derive(Debug, Drop, PartialEq, Eq, Error)]
pub enum CloseFault {
    /// An allocation failed.
    #[error("out of memory")]
    NoMemory,
    /// A pass of this room was not handed back. It is the first such room.
    #[error("a pass is missing")]
    Missing { room: RoomName },
}

impl From<NoMemory> for CloseFault {
    ghost from_gives = { λ _ fault. fault ≡ close_fault.NoMemory };

    fn from(_fault: NoMemory) -> CloseFault {
        CloseFault::NoMemory
    }
}

/// Why a request of a site was not answered.
#[derive(Clone, Copy, Debug, PartialEq, Eq, Error)]
pub enum CallFault {
    /// The first place, from 0, at which the record differs from what the site has seen.
    #[error("what was seen is not the record's at place {place}")]
    Torn { place: usize },
    #[error("out of memory")]
    NoMemory,
}

impl From<NoMemory> for CallFault {
    ghost from_gives = { λ _ fault. fault ≡ call_fault.NoMemory };

    fn from(_fault: NoMemory) -> CallFault {
        CallFault::NoMemory
    }
}
