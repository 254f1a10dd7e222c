//! Why loops cannot start.

ghost use Rattle.std.specs.Prelude.{◌≡◌};
ghost use Rattle.loops.specs.declared.fault.LoopsFault.TheVariants as fault;

use std::alloc::AllocError;
use thiserror::Error;

/// Why loops cannot start. No connection was served.
#[derive(Clone, Copy, Debug, PartialEq, Eq, Error)]
pub enum LoopsFault {
    /// No loop was asked for or more than `MAX_LOOPS`, or no thread could be started.
    #[error("no loop")]
    NoLoop,
    /// The system gave no set of sockets to wait on.
    #[error("no poll")]
    NoPoll,
    /// An allocation failed.
    #[error("out of memory")]
    NoMemory,
}

impl From<AllocError> for LoopsFault {
    ghost from_gives = { λ _ made. made ≡ fault.NoMemory };

    fn from(_fault: AllocError) -> LoopsFault {
        LoopsFault::NoMemory
    }
}
