//! A journal in memory, which can fail and lose power. Tests use it.

ghost use Rattle.std.specs.Prelude.{◌≡◌, ◌≢◌, ◌≤◌, ◌++◌, Err, IfErr, IfOk, OnErr, OnOk};
ghost use Rattle.std.specs.Prelude.{length, option_map, take};
ghost use Rattle.std.specs.Result.{result_err};
ghost use Rattle.base_types.specs.steps.Faults.{FailsBy};
ghost use Rattle.journal.specs.steps.Failures.{fault_now, after_call};
ghost use Rattle.journal.specs.steps.Memories.{AppendsAtMost};

use crate::failures::Failures;
use crate::fault::JournalFault;
use crate::journal::Journal;
use std::alloc::{AllocError, Global};
use std::io;
use std::marker::Model;

/// A journal in memory. Contracts see what it holds, what of that is kept, and its schedule of
/// failures.
#[derive(Drop)]
pub struct Memory {
    bytes: Vec<u8>,
    synced: usize,
    failures: Failures,
}

impl Model for Memory {
    ghost use Rattle.std.specs.Prelude.{◌≤◌, take, vec_len};
    ghost use Rattle.journal.specs.steps.Memories.{Contents};

    ghost Value = { Contents };

    ghost view = { λ m. record {
      held = m.bytes.items;
      kept = take m.synced m.bytes.items;
      failures = m.failures;
    } };

    ghost invariant = { λ m. m.synced ≤ vec_len m.bytes };
}

impl Memory {
    /// A journal that holds and keeps these bytes, with this schedule of failures.
    pub fn new(bytes: Vec<u8>, failures: Failures) -> Memory
        ensures held { result.held ≡ bytes.items }
        ensures kept { result.kept ≡ bytes.items }
        ensures failures { result.failures ≡ failures }
    {
        let synced = bytes.len();
        Memory {
            bytes,
            synced,
            failures,
        }
    }

    /// The bytes that are held.
    pub fn bytes(&self) -> &[u8]
        ensures { result.now ≡ self.now.held }
    {
        &self.bytes
    }

    /// The bytes that a loss of power leaves: those that are kept, followed by `tail`.
    ///
    /// # Errors
    /// `AllocError` if an allocation failed.
    pub fn lose_power(&self, alloc: Global, tail: &[u8]) -> Result<Vec<u8>, AllocError>
        ensures { IfOk result (λ left. left.items ≡ self.now.kept ++ tail.now) }
    {
        let mut left = self.bytes[..self.synced].to_vec(alloc)?;
        left.extend_from_slice(tail)?;
        Ok(left)
    }

    /// Counts one call, and returns its fault if it is to fail.
    fn count_call(&mut self) -> Option<JournalFault>
        ensures fault { result ≡ fault_now self.old.failures }
        ensures held { self.new.held ≡ self.old.held }
        ensures kept { self.new.kept ≡ self.old.kept }
        ensures failures { self.new.failures ≡ after_call self.old.failures }
    {
        let fault = self.failures.fault_now();
        self.failures = self.failures.after_call();
        fault
    }
}

impl Journal for Memory {
    ghost use Rattle.std.specs.Prelude.{Some};

    ghost held = { λ m. Some m.held };

    ghost kept = { λ m. Some m.kept };

    fn append(&mut self, bytes: &[u8]) -> Result<(), JournalFault>
        ensures fault { FailsBy JournalFault.NoMemory (fault_now self.old.failures) result }
        ensures held { OnOk result (self.new.held ≡ self.old.held ++ bytes.now) }
        ensures memory { result ≡ Err JournalFault.NoMemory → self.new.held ≡ self.old.held }
        ensures prefix { OnErr result
            (AppendsAtMost self.old.failures.leaves self.old.held self.new.held bytes.now) }
        ensures kept { self.new.kept ≡ self.old.kept }
        ensures failures { self.new.failures ≡ after_call self.old.failures }
    {
        let leaves = self.failures.leaves;
        if let Some(fault) = self.count_call() {
            // Where this allocation fails too, none of the bytes is left.
            let _ = self
                .bytes
                .extend_from_slice(&bytes[..leaves.min(bytes.len())]);
            return Err(fault);
        }
        match self.bytes.extend_from_slice(bytes) {
            Ok(()) => Ok(()),
            Err(_) => Err(JournalFault::NoMemory),
        }
    }

    fn sync(&mut self) -> Result<(), JournalFault>
        ensures fault { result_err result ≡ fault_now self.old.failures }
        ensures held { self.new.held ≡ self.old.held }
        ensures kept { OnOk result (self.new.kept ≡ self.old.held) }
        ensures err { OnErr result (self.new.kept ≡ self.old.kept) }
        ensures memory { result ≢ Err JournalFault.NoMemory }
        ensures failures { self.new.failures ≡ after_call self.old.failures }
    {
        if let Some(fault) = self.count_call() {
            return Err(fault);
        }
        self.synced = self.bytes.len();
        Ok(())
    }

    fn cut(&mut self) -> Result<(), JournalFault>
        ensures fault { result_err result ≡ fault_now self.old.failures }
        ensures held { OnOk result (self.new.held ≡ self.old.kept) }
        ensures err { OnErr result (self.new.held ≡ self.old.held) }
        ensures kept { self.new.kept ≡ self.old.kept }
        ensures memory { result ≢ Err JournalFault.NoMemory }
        ensures failures { self.new.failures ≡ after_call self.old.failures }
    {
        if let Some(fault) = self.count_call() {
            return Err(fault);
        }
        self.bytes.truncate(self.synced);
        Ok(())
    }

    fn error(&self) -> Option<&io::Error> {
        None
    }
}
