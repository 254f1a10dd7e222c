//! Why an entry or a page is not taken.

ghost use Rattle.std.specs.Prelude.{◌≡◌};
ghost use Rattle.late_join.specs.declared.fault.FeedFault.TheVariants as feed_fault;
ghost use Rattle.late_join.specs.declared.fault.TakeFault.TheVariants as take_fault;

use base_types::NoMemory;
use drawing::AddFault;
use rules::Refusal;
use thiserror::Error;
use wire_reader::ReadFault;

/// Why an entry is not taken: the first variant that applies, in this order. `NoMemory` may replace
/// any of them. The replica is unchanged.
#[derive(Clone, Copy, Debug, PartialEq, Eq, Error)]
pub enum TakeFault {
    /// The entry was taken before.
    #[error("the entry was taken already")]
    Repeat,
    /// Something that the entry depends on was not taken yet.
    #[error("what the entry comes after is not there yet")]
    Early,
    /// A rule of rooms, or a limit, refuses the entry.
    #[error("the entry is refused")]
    Refused(Refusal),
    /// An allocation failed.
    #[error("out of memory")]
    NoMemory,
}

impl From<NoMemory> for TakeFault {
    ghost from_gives = { λ _ fault. fault ≡ take_fault.NoMemory };

    fn from(_fault: NoMemory) -> TakeFault {
        TakeFault::NoMemory
    }
}

impl From<AddFault> for TakeFault {
    ghost use Rattle.std.specs.Prelude.{◌≡◌};
    ghost use Rattle.late_join.specs.steps.Steps.{of_adding};

    ghost from_gives = { λ add_fault fault. fault ≡ of_adding add_fault };

    fn from(fault: AddFault) -> TakeFault {
        match fault {
            AddFault::Refused(refusal) => TakeFault::Refused(refusal),
            AddFault::NoMemory => TakeFault::NoMemory,
        }
    }
}

/// Why a page is not taken as a whole.
#[derive(Clone, Copy, Debug, PartialEq, Eq, Error)]
pub enum FeedFault {
    /// The bytes are no text of an `entries` reply. The replica is unchanged.
    #[error("the bytes are no page of a record")]
    NotAPage,
    /// The entry at `place` of the page, counted from 0, was not taken. Those before it were.
    #[error("the entry at place {place} of the page is not taken: {fault}")]
    Take { place: u32, fault: TakeFault },
    /// An allocation failed while the page was read. The replica is unchanged.
    #[error("out of memory")]
    NoMemory,
}

impl From<ReadFault> for FeedFault {
    ghost use Rattle.std.specs.Prelude.{◌≡◌};
    ghost use Rattle.late_join.specs.steps.Feeding.{of_reading};

    ghost from_gives = { λ read_fault fault. fault ≡ of_reading read_fault };

    fn from(fault: ReadFault) -> FeedFault {
        match fault {
            ReadFault::Bad => FeedFault::NotAPage,
            ReadFault::NoMemory => FeedFault::NoMemory,
        }
    }
}
