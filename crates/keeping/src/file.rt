//! A room's file.

ghost use Rattle.std.specs.Prelude.{◌≡◌, ◌↔◌, ◌++◌, Err, IfErr, OnErr, OnOk, IfOk, IfSome, IsSome};
ghost use Rattle.std.specs.Prelude.{length, map, option_map, true};
ghost use Rattle.std.specs.Arc.{arc_value};
ghost use Rattle.record_file.specs.RecordText.{AreLines, record_text};
ghost use Rattle.room_lock.specs.InOrder.{opening_name};
ghost use Rattle.keeping.specs.declared.file.Tail.TheVariants.{Nothing, Broken};
ghost use Rattle.keeping.specs.Tails.{is_clean, tail_after};
ghost use Rattle.keeping.specs.steps.Faults.{keep_fault_of};

mod clean;
mod kept;

use base_types::NoMemory;
pub use clean::Clean;
use journal::{Journal, JournalFault};
use keeper::KeepFault;
pub use kept::Kept;
use record_file::{are_in_range, text_of};
use restore::RestoredFile;
use room_lock::{News, Prefix, RoomHistories};
use rules::Entry;
use std::alloc::Global;
use std::io;
use std::marker::Model;
use std::sync::Arc;

/// What may follow the kept bytes in the file.
#[derive(Clone, Copy, Debug, PartialEq, Eq)]
enum Tail {
    /// Nothing.
    Nothing,
    /// Arbitrary bytes, since the disk was full or an allocation failed. They are cut off before
    /// the next write.
    Scraps,
    /// Arbitrary bytes, since a write, a sync or a cut failed. The file accepts no more.
    Broken,
}

/// A room's file, open for appending. Contracts see the prefix of the room's record that the file
/// keeps, and what may follow it in the file.
#[derive(Drop)]
pub struct RoomFile<P: RoomHistories, J: Journal> {
    journal: J,
    kept: Kept<P>,
    tail: Tail,
}

impl<P: RoomHistories, J: Journal> Model for RoomFile<P, J> {
    ghost use Rattle.keeping.specs.Kept.{IsInFile};
    ghost use Rattle.keeping.specs.Tails.{RoomFileView, is_clean};

    ghost Value = { RoomFileView };

    ghost view = { λ f. record { kept = f.kept; tail = f.tail } };

    ghost invariant = { λ f.
        IsInFile (J.held f.journal) (J.kept f.journal) f.kept.entries (is_clean f.tail) };
}

impl<P: RoomHistories, J: Journal> RoomFile<P, J> {
    /// The file of a room, which begins with the record that was restored from it.
    pub fn open(begun: &Prefix<P>, file: RestoredFile<J>) -> RoomFile<P, J>
        // The file has the name of the room, and the room begins with the file's record:
        requires name { begun.now.opening.room.name ≡ file.name }
        requires begun { begun.now.entries ≡ file.entries }
        ensures { result ≡ record { kept = begun.now; tail = Nothing } }
    {
        RoomFile {
            journal: file.into_journal(),
            kept: Kept::of(begun),
            tail: Tail::Nothing,
        }
    }

    /// The receipt for what the file keeps.
    pub fn receipt(&self) -> &Kept<P>
        ensures { result.now ≡ self.now.kept }
    {
        &self.kept
    }

    /// The proof that the file holds only what it keeps, if it does.
    pub fn clean(&self) -> Option<Clean>
        ensures some { IsSome result ↔ (is_clean self.now.tail ≡ true) }
        ensures number { IfSome result (λ clean. clean ≡ self.now.kept.opening.number) }
    {
        match self.tail {
            Tail::Nothing => Some(Clean::of(self.kept.prefix().opening().number())),
            Tail::Scraps | Tail::Broken => None,
        }
    }

    /// The error of the system at the last call on the file that failed by one, for people.
    pub fn error(&self) -> Option<&io::Error> {
        self.journal.error()
    }

    /// Appends what the room's record has beyond the kept prefix, by one write and one sync. Gives
    /// the number of bytes of these entries. Linear in them.
    ///
    /// # Errors
    /// What the file keeps is unchanged.
    /// `Full` if the disk is full; the next call tries again.
    /// `Failed` if a cut, a write or a sync failed for another reason, or an entry is out of range,
    /// now and for each later call.
    /// `NoMemory` if an allocation failed.
    pub fn keep(&mut self, alloc: Global, news: &News<P>) -> Result<u64, JournalFault>
        requires news { self.old.kept.entries ++ news.now.entries ≡ news.now.whole.entries }
        requires opening { news.now.whole.opening ≡ self.old.kept.opening }
        // On `Ok`:
        ensures kept { OnOk result
            (self.new ≡ record { kept = news.now.whole; tail = Nothing }) }
        ensures bytes { IfOk result (λ bytes. bytes ≡ length (record_text news.now.entries)) }
        // On `Err`:
        ensures err { OnErr result (self.new.kept ≡ self.old.kept) }
        ensures tail { IfErr result (λ fault. self.new.tail ≡ tail_after fault) }
        ensures broken { self.old.tail ≡ Broken → result ≡ Err JournalFault.Failed }
    {
        match put_behind(alloc, &mut self.journal, self.tail, news.entries()) {
            Ok(bytes) => {
                self.kept = Kept::of(news.whole());
                self.tail = Tail::Nothing;
                Ok(bytes)
            }
            Err(fault) => {
                self.tail = tail_after(fault);
                Err(fault)
            }
        }
    }

    /// Consumes the file. A loss of power leaves whole lines of the kept entries at its start.
    pub fn into_journal(self) -> J
        ensures { IfSome (J.kept result) (λ bytes. AreLines bytes self.kept.entries) }
    {
        self.journal
    }
}

impl<P: RoomHistories, J: Journal + Drop> RoomFile<P, J> {
    /// Opens the files of all rooms, in the order of the rooms.
    ///
    /// # Errors
    /// `NoMemory` if an allocation failed.
    pub fn open_all(
        alloc: Global,
        begun: &[Prefix<P>],
        files: Vec<RestoredFile<J>>,
    ) -> Result<Vec<RoomFile<P, J>>, NoMemory>
        // There is a file for each room in order, with the room's name, and the room begins with
        // the file's record:
        requires names { map opening_name (map (λ begun. begun.opening) begun.now)
            ≡ map (λ file. file.name) files.items }
        requires begun { map (λ begun. begun.entries) begun.now
            ≡ map (λ file. file.entries) files.items }
        ensures { IfOk result (λ opened. map (λ file. file.kept) opened.items ≡ begun.now) }
    {
        let mut opened = Vec::with_capacity(alloc, files.len())?;
        for file in files {
            let prefix = &begun[opened.len()];
            opened.push(RoomFile::open(prefix, file))?;
        }
        Ok(opened)
    }
}

/// Appends entries behind the kept bytes and syncs them. Cuts off what may follow those first.
/// Gives the number of bytes that were appended. `Failed` if the file accepts no more.
fn put_behind<J: Journal>(
    alloc: Global,
    journal: &mut J,
    tail: Tail,
    entries: &[Arc<Entry>],
) -> Result<u64, JournalFault>
    requires { is_clean tail ≡ true → J.held journal.old ≡ J.kept journal.old }
    // On `Ok`:
    ensures held { OnOk result (J.held journal.new ≡ J.kept journal.new) }
    ensures kept { OnOk result (J.kept journal.new
        ≡ option_map (λ bytes. bytes ++ record_text (map arc_value entries.now))
        (J.kept journal.old)) }
    ensures lines { OnOk result
        (AreLines (record_text (map arc_value entries.now)) (map arc_value entries.now)) }
    ensures bytes { IfOk result (λ bytes.
        bytes ≡ length (record_text (map arc_value entries.now))) }
    // On `Err`:
    ensures err { OnErr result (J.kept journal.new ≡ J.kept journal.old) }
    ensures broken { tail ≡ Broken → result ≡ Err JournalFault.Failed }
{
    match tail {
        Tail::Nothing => {}
        Tail::Scraps => journal.cut()?,
        Tail::Broken => return Err(JournalFault::Failed),
    }
    if !are_in_range(entries) {
        return Err(JournalFault::Failed);
    }
    let text = text_of(alloc, entries)?;
    journal.append(text.as_bytes())?;
    journal.sync()?;
    Ok(text.len() as u64)
}

/// What may follow the kept bytes after a fault.
fn tail_after(fault: JournalFault) -> Tail
    ensures { result ≡ tail_after fault }
{
    match fault {
        JournalFault::NoMemory | JournalFault::Full => Tail::Scraps,
        JournalFault::Failed => Tail::Broken,
    }
}

/// The fault of keeping for a fault of the file.
pub(crate) fn keep_fault(fault: JournalFault) -> KeepFault
    ensures { result ≡ keep_fault_of fault }
{
    match fault {
        JournalFault::NoMemory => KeepFault::NoMemory,
        JournalFault::Full | JournalFault::Failed => KeepFault::NotKept,
    }
}
