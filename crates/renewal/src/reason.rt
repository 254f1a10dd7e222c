//! Why a room was not renewed.

use base_types::NoMemory;
use std::alloc::{AllocError, AllocFailed};
use thiserror::Error;

/// Why no renewed record was found.
#[derive(Clone, Copy, Debug, PartialEq, Eq, Error)]
pub enum Reason {
    /// No choice of first puts keeps the versions of some object apart.
    #[error("the versions of an object cannot be kept apart")]
    Inseparable,
    /// The record that was found has more entries than the old one.
    #[error("the new record is longer than the old one")]
    TooLong,
    /// The record that was found is not legal, or draws something else.
    #[error("the new record is no renewal")]
    Refused,
}

/// Why entries could not be written.
#[derive(Clone, Copy, Debug, PartialEq, Eq)]
pub(crate) enum WritingFault {
    NoMemory,
    Declined(Reason),
}

impl From<NoMemory> for WritingFault {
    fn from(_fault: NoMemory) -> WritingFault {
        WritingFault::NoMemory
    }
}

impl From<AllocError> for WritingFault {
    fn from(_fault: AllocError) -> WritingFault {
        WritingFault::NoMemory
    }
}

impl<T: Drop> From<AllocFailed<T>> for WritingFault {
    fn from(_fault: AllocFailed<T>) -> WritingFault {
        WritingFault::NoMemory
    }
}

impl From<Reason> for WritingFault {
    fn from(reason: Reason) -> WritingFault {
        WritingFault::Declined(reason)
    }
}
