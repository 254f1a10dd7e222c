//! Faults: failed allocations, texts and lists that are out of range, and names of rooms that are
//! repeated.

ghost use Rattle.std.specs.Prelude.{◌≡◌};
ghost use Rattle.base_types.specs.declared.fault.NameFault.TheVariants as name_fault;
ghost use Rattle.base_types.specs.declared.fault.RoomsFault.TheVariants as rooms_fault;

use std::alloc::{AllocError, AllocFailed};
use thiserror::Error;

/// An allocation failed. The call that returns it changed nothing, unless its docstring says more.
#[derive(Clone, Copy, Debug, PartialEq, Eq, Error)]
#[error("out of memory")]
pub struct NoMemory;

impl From<AllocError> for NoMemory {
    fn from(_fault: AllocError) -> NoMemory {
        NoMemory
    }
}

impl<T: Drop> From<AllocFailed<T>> for NoMemory {
    fn from(_fault: AllocFailed<T>) -> NoMemory {
        NoMemory
    }
}

/// Why a text is not in range.
#[derive(Clone, Copy, Debug, PartialEq, Eq, Error)]
pub enum NameFault {
    #[error("the text is empty")]
    Empty,
    #[error("the text is too long")]
    TooLong,
    /// The place, from 0, of the first byte that is not one of a-z, 0-9 and `-`.
    #[error("byte {0} is none of a-z, 0-9 and -")]
    BadByte(usize),
    /// What follows the first dot of a room's name is no number of a successor.
    #[error("what follows the dot is no number from 2 to 999999")]
    BadNumber,
    #[error("out of memory")]
    NoMemory,
}

impl From<AllocError> for NameFault {
    ghost from_gives = { λ _ fault. fault ≡ name_fault.NoMemory };

    fn from(_fault: AllocError) -> NameFault {
        NameFault::NoMemory
    }
}

/// Why a list of names is not a version identifier.
#[derive(Clone, Copy, Debug, PartialEq, Eq, Error)]
pub enum ListFault {
    #[error("the names do not increase strictly")]
    NotRising,
}

/// Why rooms can't be made.
#[derive(Clone, Copy, Debug, PartialEq, Eq, Error)]
pub enum RoomsFault {
    /// The first place, from 0, whose name is also at an earlier place.
    #[error("the name at place {0} is repeated")]
    SameName(usize),
    #[error("out of memory")]
    NoMemory,
}

impl From<NoMemory> for RoomsFault {
    ghost from_gives = { λ _ fault. fault ≡ rooms_fault.NoMemory };

    fn from(_fault: NoMemory) -> RoomsFault {
        RoomsFault::NoMemory
    }
}
