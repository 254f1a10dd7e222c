//! The text of entries, and appending it to a journal.

ghost use Rattle.std.specs.Prelude.{◌≡◌, ◌++◌, All, Err, IfOk, OnErr, OnOk};
ghost use Rattle.std.specs.Prelude.{map, option_map, string_bytes};
ghost use Rattle.std.specs.Arc.{arc_value};
ghost use Rattle.wire.specs.Form.{IsEntry};
ghost use Rattle.record_file.specs.RecordText.{AreLines, record_text};

use crate::range::are_in_range;
use base_types::NoMemory;
use journal::{Journal, JournalFault};
use rules::Entry;
use std::alloc::Global;
use std::sync::Arc;
use wire::write_entry;

/// The text of the entries: one line each, in order, each ended by LF. If all entries are in range,
/// each line is read back as its entry.
///
/// # Errors
/// `NoMemory` if an allocation failed.
pub fn text_of(alloc: Global, entries: &[Arc<Entry>]) -> Result<String, NoMemory>
    ensures text { IfOk result (λ text.
        string_bytes text ≡ record_text (map arc_value entries.now)) }
    ensures lines { IfOk result (λ text. All (λ entry. IsEntry (arc_value entry)) entries.now
        → AreLines (string_bytes text) (map arc_value entries.now)) }
{
    let mut text = String::new(alloc);
    for entry in entries {
        let line = write_entry(alloc, entry)?;
        text.push_str(line.as_str())?;
        text.push('\n')?;
    }
    Ok(text)
}

/// Appends entries to a record by one write and one sync. On `Ok` the file keeps what it held
/// before and then the lines of the entries. On `Err` what was kept is still kept.
///
/// # Errors
/// `NoMemory` if an allocation failed; the journal holds what it held.
/// `Full` if the disk is full.
/// `Failed` if a write or a sync failed for another reason, or if an entry is out of range. In the
/// last case the journal is unchanged.
pub fn append<J: Journal>(
    alloc: Global,
    journal: &mut J,
    entries: &[Arc<Entry>],
) -> Result<(), JournalFault>
    ensures held { OnOk result (J.held journal.new
        ≡ option_map (λ h. h ++ record_text (map arc_value entries.now)) (J.held journal.old)) }
    ensures kept { OnOk result (J.kept journal.new ≡ J.held journal.new) }
    ensures lines { OnOk result
        (AreLines (record_text (map arc_value entries.now)) (map arc_value entries.now)) }
    ensures err { OnErr result (J.kept journal.new ≡ J.kept journal.old) }
    ensures memory { result ≡ Err JournalFault.NoMemory → J.held journal.new ≡ J.held journal.old }
{
    if !are_in_range(entries) {
        return Err(JournalFault::Failed);
    }
    let text = text_of(alloc, entries)?;
    journal.append(text.as_bytes())?;
    journal.sync()
}
