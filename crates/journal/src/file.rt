//! A journal over a file of the operating system.

ghost use Rattle.std.specs.IoError.{error_kind};
ghost use Rattle.std.specs.Prelude.{◌≡◌, ◌≢◌, ◌+◌, Err, OnErr, OnOk, false, length, true};
ghost use Rattle.journal.specs.steps.Faults.{fault_of_kind};

use crate::fault::JournalFault;
use crate::journal::Journal;
use std::fs::OpenFile;
use std::io;
use std::io::Write;
use std::marker::Model;

/// A journal over a file that was opened for appending.
/// No clause says what the file holds: the effect of a system call is outside the contracts.
/// Contracts see three fields. `held` counts the bytes that were written. `kept` counts those that
/// were synced. `failed` is true after a failed call until the next successful cut.
#[derive(Drop)]
pub struct Synced<F> {
    file: F,
    held: u64,
    kept: u64,
    failed: bool,
    /// The error of the system at the last call that failed by one.
    error: Option<io::Error>,
}

impl<F> Model for Synced<F> {
    ghost use Rattle.journal.specs.steps.Counts.{Counts};

    ghost Value = { Counts };

    ghost view = { λ s. record { held = s.held; kept = s.kept; failed = s.failed } };
}

impl<F> Synced<F> {
    /// A journal over a file that was opened for appending. `len` is the file's length in bytes,
    /// all of which are on the disk.
    pub fn new(file: F, len: u64) -> Synced<F>
        ensures { result ≡ record { held = len; kept = len; failed = false } }
    {
        Synced {
            file,
            held: len,
            kept: len,
            failed: false,
            error: None,
        }
    }

    /// The number of bytes that are kept.
    pub fn kept_len(&self) -> u64
        ensures { result ≡ self.now.kept }
    {
        self.kept
    }

    /// The fault for an error of the system, which is remembered.
    fn fail(&mut self, error: io::Error) -> JournalFault
        ensures fault { result ≡ fault_of_kind (error_kind error) }
        ensures same { self.new ≡ self.old }
    {
        let fault = JournalFault::of_error(&error);
        self.error = Some(error);
        fault
    }
}

impl<F: Write + OpenFile> Journal for Synced<F> {
    ghost use Rattle.std.specs.Prelude.{None};

    ghost held = { λ _. None };

    ghost kept = { λ _. None };

    /// Returns `Failed` after an earlier fault, until `cut` succeeds.
    fn append(&mut self, bytes: &[u8]) -> Result<(), JournalFault>
        ensures failed_before { self.old.failed ≡ true → result ≡ Err JournalFault.Failed }
        ensures ok { OnOk result (self.new ≡ record self.old {
          held =
              self.old.held + length bytes.now;
        }) }
        ensures err { OnErr result (self.new ≡ record self.old { failed = true }) }
    {
        if self.failed {
            return Err(JournalFault::Failed);
        }
        self.failed = true;
        let Some(held) = self.held.checked_add(bytes.len() as u64) else {
            return Err(JournalFault::Failed);
        };
        if let Err(error) = self.file.write_all(bytes) {
            return Err(self.fail(error));
        }
        self.held = held;
        self.failed = false;
        Ok(())
    }

    /// Returns `Failed` after an earlier fault, until `cut` succeeds. A later sync may omit what a
    /// failed sync did not write.
    fn sync(&mut self) -> Result<(), JournalFault>
        ensures failed_before { self.old.failed ≡ true → result ≡ Err JournalFault.Failed }
        ensures ok { OnOk result (self.new ≡ record self.old { kept = self.old.held }) }
        ensures err { OnErr result (self.new ≡ record self.old { failed = true }) }
        ensures memory { result ≢ Err JournalFault.NoMemory }
    {
        if self.failed {
            return Err(JournalFault::Failed);
        }
        self.failed = true;
        if let Err(error) = self.file.sync_data() {
            return Err(self.fail(error));
        }
        self.kept = self.held;
        self.failed = false;
        Ok(())
    }

    fn cut(&mut self) -> Result<(), JournalFault>
        ensures ok { OnOk result
            (self.new ≡ record self.old { held = self.old.kept; failed = false }) }
        ensures err { OnErr result (self.new ≡ record self.old { failed = true }) }
        ensures memory { result ≢ Err JournalFault.NoMemory }
    {
        self.failed = true;
        if let Err(error) = self.file.set_len(self.kept) {
            return Err(self.fail(error));
        }
        if let Err(error) = self.file.sync_all() {
            return Err(self.fail(error));
        }
        self.held = self.kept;
        self.failed = false;
        Ok(())
    }

    fn error(&self) -> Option<&io::Error> {
        self.error.as_ref()
    }
}
