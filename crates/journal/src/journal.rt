//! The interface of a journal.

ghost use Rattle.std.specs.Prelude.{◌≡◌, ◌≢◌, ◌++◌, Err, OnErr, OnOk, option_map};

use crate::fault::JournalFault;
use std::io;

/// A file that grows at its end and is never overwritten. A type that models its contents gives
/// them as `held` and `kept`. Both are `None` for a file of the operating system.
pub trait Journal {
    ghost use Rattle.std.specs.Prelude.{List, ℕ, Option};

    /// The bytes that a read would give.
    ghost held: { Self → Option (List ℕ) };

    /// The bytes that survive a loss of power or the end of the process. The file begins with them
    /// then, and arbitrary bytes may follow.
    ghost kept: { Self → Option (List ℕ) };

    /// Appends bytes. They are not kept before `sync` succeeds.
    ///
    /// # Errors
    /// `NoMemory` if an allocation failed; the journal is unchanged.
    /// `Full` if the disk is full. A prefix of the bytes may have been appended.
    /// `Failed` if the write failed for another reason. A prefix of the bytes may have been
    /// appended.
    fn append(&mut self, bytes: &[u8]) -> Result<(), JournalFault>
        ensures held { OnOk result
            (held self.new ≡ option_map (λ h. h ++ bytes.now) (held self.old)) }
        ensures memory { result ≡ Err JournalFault.NoMemory → held self.new ≡ held self.old }
        ensures kept { kept self.new ≡ kept self.old };

    /// Writes everything that is held to the disk. It is then kept.
    ///
    /// # Errors
    /// `Full` if the disk is full. What was not kept may be lost.
    /// `Failed` if the sync failed for another reason. What was not kept may be lost.
    fn sync(&mut self) -> Result<(), JournalFault>
        ensures held { OnOk result (held self.new ≡ held self.old) }
        ensures kept { OnOk result (kept self.new ≡ held self.old) }
        ensures err { OnErr result (kept self.new ≡ kept self.old) }
        ensures memory { result ≢ Err JournalFault.NoMemory };

    /// Cuts the file back to what is kept, also after a fault. The journal accepts appends again.
    ///
    /// # Errors
    /// `Full` if the disk is full.
    /// `Failed` if the cut failed for another reason.
    fn cut(&mut self) -> Result<(), JournalFault>
        ensures held { OnOk result (held self.new ≡ kept self.old) }
        ensures kept { kept self.new ≡ kept self.old }
        ensures memory { result ≢ Err JournalFault.NoMemory };

    /// The error of the system at the last call that failed by one, for people.
    fn error(&self) -> Option<&io::Error>;
}
