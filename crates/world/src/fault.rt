//! Why a script ends early.

ghost use Rattle.std.specs.Prelude.{◌≡◌};
ghost use Rattle.world.specs.declared.fault.ScriptFault.TheVariants as script_fault;

use base_types::NoMemory;
use thiserror::Error;

/// Why a script ended early.
#[derive(Clone, Copy, Debug, PartialEq, Eq, Error)]
pub enum ScriptFault {
    #[error("the input can't be read")]
    Read,
    #[error("the output can't be written")]
    Write,
    #[error("out of memory")]
    NoMemory,
}

impl From<NoMemory> for ScriptFault {
    ghost from_gives = { λ _ fault. fault ≡ script_fault.NoMemory };

    fn from(_fault: NoMemory) -> ScriptFault {
        ScriptFault::NoMemory
    }
}
