//! Why an operation can't be added to a drawing.

ghost use Rattle.std.specs.Prelude.{◌≡◌};
ghost use Rattle.drawing.specs.declared.fault.AddFault.TheVariants as add_fault;
ghost use Rattle.drawing.specs.steps.Faults.{of_change};

use base_types::NoMemory;
use rules::Refusal;
use shape::ChangeFault;
use thiserror::Error;

/// Why an operation can't be added: a rule does not allow it, or an allocation failed.
#[derive(Clone, Copy, Debug, PartialEq, Eq, Error)]
pub enum AddFault {
    #[error("the operation is refused")]
    Refused(Refusal),
    #[error("out of memory")]
    NoMemory,
}

impl From<NoMemory> for AddFault {
    ghost from_gives = { λ _ fault. fault ≡ add_fault.NoMemory };

    fn from(_fault: NoMemory) -> AddFault {
        AddFault::NoMemory
    }
}

impl From<ChangeFault> for AddFault {
    ghost from_gives = { λ change_fault fault. fault ≡ of_change change_fault };

    fn from(fault: ChangeFault) -> AddFault {
        match fault.refusal() {
            Some(refusal) => AddFault::Refused(refusal),
            None => AddFault::NoMemory,
        }
    }
}
