//! Entries of a record as text.

ghost use Rattle.std.specs.Prelude.{◌≡◌, IfOk, string_bytes};
ghost use Rattle.std.specs.Arc.{arc_value};
ghost use Rattle.wire.specs.Form.{entry_form, IsEntry, IsEntryText};
ghost use Rattle.wire.specs.steps.Forms.{entry_text};

use super::operation::write_operation;
use super::part::{Written, compact};
use base_types::NoMemory;
use rules::Entry;
use std::alloc::Global;
use std::sync::Arc;

impl Written for Entry {
    ghost form = { entry_form };

    fn write(&self, alloc: Global, text: &mut String) -> Result<(), NoMemory> {
        match self {
            Entry::Join(site) => ("join", *site).write(alloc, text),
            Entry::Operation(op) => write_operation(&op.name, &op.seen, &op.body, alloc, text),
            Entry::Next(count) => ("next", *count).write(alloc, text),
        }
    }
}

impl Written for Arc<Entry> {
    ghost form = { λ entry. entry_form (arc_value entry) };

    fn write(&self, alloc: Global, text: &mut String) -> Result<(), NoMemory> {
        let entry: &Entry = self;
        entry.write(alloc, text)
    }
}

/// The compact text of an entry: its form without white space. `read_entry` reads it back if the
/// entry is in range. Linear in the text.
///
/// # Errors
///
/// `NoMemory` if an allocation failed.
pub fn write_entry(alloc: Global, entry: &Entry) -> Result<String, NoMemory>
    ensures text { IfOk result (λ text. string_bytes text ≡ entry_text entry.now) }
    ensures is_read { IfOk result (λ text. IsEntry entry.now
        → IsEntryText (string_bytes text) entry.now) }
{
    compact(alloc, entry)
}
