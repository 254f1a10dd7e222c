//! A room's file that was restored.
//!
//! A value ties a file to the name of its room and to the record that its whole lines are. So the
//! file of one room cannot be taken for that of another, or for one with another record. The
//! record's entries exist in the proofs alone.

ghost use Rattle.std.specs.Prelude.{◌≡◌, IfSome, string_bytes};
ghost use Rattle.record_file.specs.RecordText.{AreLines};

use journal::Journal;
use shared_history::Front;
use std::marker::Model;

/// The file of a room, all of it on the disk, and open for appending. Contracts see the room's name
/// and the record to which the file was restored.
#[derive(Drop)]
pub struct RestoredFile<J: Journal> {
    name: String,
    restored: Front,
    journal: J,
}

impl<J: Journal> Model for RestoredFile<J> {
    ghost use Rattle.std.specs.Prelude.{◌≡◌, IfSome, string_bytes};
    ghost use Rattle.record_file.specs.RecordText.{AreLines};
    ghost use Rattle.restore.specs.steps.Files.{FileView};

    ghost Value = { FileView };

    ghost view = { λ f. record { name = string_bytes f.name; entries = f.restored.entries } };

    ghost invariant = { λ f. (J.held f.journal ≡ J.kept f.journal)
        × IfSome (J.kept f.journal) (λ bytes. AreLines bytes f.restored.entries) };
}

impl<J: Journal> RestoredFile<J> {
    /// The file of the room of this name. Its whole lines are the entries that `restored` has seen,
    /// and all of it is on the disk.
    pub fn new(name: String, restored: Front, journal: J) -> RestoredFile<J>
        requires synced { J.held journal ≡ J.kept journal }
        requires lines { IfSome (J.kept journal) (λ bytes. AreLines bytes restored.entries) }
        ensures { result ≡ record { name = string_bytes name; entries = restored.entries } }
    {
        RestoredFile {
            name,
            restored,
            journal,
        }
    }

    /// The journal over the file.
    pub fn into_journal(self) -> J
        ensures synced { J.held result ≡ J.kept result }
        ensures lines { IfSome (J.kept result) (λ bytes. AreLines bytes self.entries) }
    {
        self.journal
    }
}
