//! A schedule of failures for the journal in memory.

ghost use Rattle.std.specs.Prelude.{◌≡◌};
ghost use Rattle.journal.specs.steps.Failures.{fault_now, after_call};

use crate::fault::JournalFault;

/// Which calls of a `Memory` fail, and how.
#[derive(Clone, Copy, Debug, PartialEq, Eq)]
pub struct Failures {
    /// The number of calls that succeed first.
    pub after: u32,
    /// The number of calls that fail after these. Later calls succeed again.
    pub count: u32,
    /// Whether a failed call reports `Full`. Otherwise it reports `Failed`.
    pub is_full: bool,
    /// The most bytes that a failed append leaves at the end of the file.
    pub leaves: usize,
}

impl Failures {
    /// No call fails.
    pub const NONE: Failures = Failures {
        after: 0,
        count: 0,
        is_full: false,
        leaves: 0,
    };

    /// The fault of the next call, or `None` if it succeeds.
    pub(crate) fn fault_now(&self) -> Option<JournalFault>
        ensures { result ≡ fault_now self.now }
    {
        if self.after > 0 || self.count == 0 {
            return None;
        }
        if self.is_full {
            Some(JournalFault::Full)
        } else {
            Some(JournalFault::Failed)
        }
    }

    /// The schedule after one more call.
    pub(crate) fn after_call(self) -> Failures
        ensures { result ≡ after_call self }
    {
        if self.after > 0 {
            Failures {
                after: self.after - 1,
                ..self
            }
        } else {
            Failures {
                count: self.count.saturating_sub(1),
                ..self
            }
        }
    }
}
