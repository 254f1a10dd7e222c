//! Faults of reading: a failed allocation, and bytes that are not in form.

ghost use Rattle.std.specs.Prelude.{◌≡◌, Err, IfNone, IfOk, IfSome, Ok, OnErr};
ghost use Rattle.wire_reader.specs.declared.fault.ReadFault.TheVariants.{Bad, NoMemory};

use base_types::{ListFault, NameFault, VectorFault};
use std::alloc::{AllocError, AllocFailed};
use thiserror::Error;

/// Why bytes could not be read.
#[derive(Clone, Copy, Debug, PartialEq, Eq, Error)]
pub enum ReadFault {
    /// They are not in form.
    #[error("the bytes have no such form")]
    Bad,
    #[error("out of memory")]
    NoMemory,
}

/// Gives what was read, or `None` for `Bad`.
///
/// # Errors
///
/// `NoMemory` if an allocation failed.
pub fn if_in_form<T>(read: Result<T, ReadFault>) -> Result<Option<T>, base_types::NoMemory>
    ensures some { IfOk result (λ found. IfSome found (λ value. read ≡ Ok value)) }
    ensures none { IfOk result (λ found. IfNone found (read ≡ Err Bad)) }
    ensures err { OnErr result (read ≡ Err NoMemory) }
{
    match read {
        Ok(value) => Ok(Some(value)),
        Err(ReadFault::Bad) => Ok(None),
        Err(ReadFault::NoMemory) => Err(base_types::NoMemory),
    }
}

impl From<AllocError> for ReadFault {
    ghost from_gives = { λ _ e. e ≡ NoMemory };

    fn from(_e: AllocError) -> ReadFault {
        ReadFault::NoMemory
    }
}

impl<T: Drop> From<AllocFailed<T>> for ReadFault {
    ghost from_gives = { λ _ e. e ≡ NoMemory };

    fn from(_e: AllocFailed<T>) -> ReadFault {
        ReadFault::NoMemory
    }
}

impl From<base_types::NoMemory> for ReadFault {
    ghost from_gives = { λ _ e. e ≡ NoMemory };

    fn from(_fault: base_types::NoMemory) -> ReadFault {
        ReadFault::NoMemory
    }
}

impl From<NameFault> for ReadFault {
    ghost use Rattle.wire_reader.specs.steps.Faults.{of_bad_name};
    ghost use Rattle.std.specs.Prelude.{◌≡◌};

    ghost from_gives = { λ f e. e ≡ of_bad_name f };

    fn from(fault: NameFault) -> ReadFault {
        match fault {
            NameFault::NoMemory => ReadFault::NoMemory,
            _ => ReadFault::Bad,
        }
    }
}

impl From<ListFault> for ReadFault {
    ghost use Rattle.wire_reader.specs.steps.Faults.{of_list};
    ghost use Rattle.std.specs.Prelude.{◌≡◌};

    ghost from_gives = { λ f e. e ≡ of_list f };

    fn from(fault: ListFault) -> ReadFault {
        match fault {
            ListFault::NotRising => ReadFault::Bad,
        }
    }
}

impl From<VectorFault> for ReadFault {
    ghost use Rattle.wire_reader.specs.steps.Faults.{of_vector};
    ghost use Rattle.std.specs.Prelude.{◌≡◌};

    ghost from_gives = { λ f e. e ≡ of_vector f };

    fn from(fault: VectorFault) -> ReadFault {
        match fault {
            VectorFault::NoMemory => ReadFault::NoMemory,
            _ => ReadFault::Bad,
        }
    }
}

impl From<serde_json::Error> for ReadFault {
    ghost use Rattle.wire_reader.specs.steps.Faults.{IsOfText};

    ghost from_gives = { IsOfText };

    fn from(fault: serde_json::Error) -> ReadFault {
        if fault.is_memory() {
            ReadFault::NoMemory
        } else {
            ReadFault::Bad
        }
    }
}
