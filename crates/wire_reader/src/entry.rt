//! Entries of a record from JSON.

ghost use Rattle.std.specs.Prelude.{◌≡◌, ◌≤◌, ℕ, IfOk, IsErrOf, Some, None};
ghost use Rattle.std.specs.Arc.{arc_value};
ghost use Rattle.rules.specs.declared.history.Entry.{Entry as AnyEntry};
ghost use Rattle.wire.specs.Form.{IsEntryText};
ghost use Rattle.wire_reader.specs.steps.Entries.{entry_join_at, next_at, entry_change_at, entry_of};
ghost use Rattle.wire_reader.specs.steps.Reads.{entry_read};
ghost use Rattle.wire_reader.specs.steps.Streams.{rest_in, Takes};

use crate::body::operation_of;
use crate::fault::ReadFault;
use crate::part::{Part, read_text};
use crate::token::{close_list, whole_of, word_of};
use base_types::MAX_SITE;
use json::{Reader, Scratch};
use rules::{Entry, Limits, Op};
use std::alloc::Global;
use std::sync::Arc;

fn join_of(reader: &mut Reader<'_>) -> Result<Entry, ReadFault>
    ensures { (n : ℕ) → Takes (λ entry. entry) result
        (rest_in entry_join_at n reader.old) reader.new }
{
    let site = whole_of(reader, 1, MAX_SITE)?;
    close_list(reader)?;
    Ok(Entry::Join(site))
}

fn next_of(reader: &mut Reader<'_>) -> Result<Entry, ReadFault>
    ensures { (n : ℕ) → Takes (λ entry. entry) result (rest_in next_at n reader.old) reader.new }
{
    let count = whole_of(reader, 0, Limits::MAX_ENTRIES)?;
    close_list(reader)?;
    Ok(Entry::Next(count))
}

fn change_of(alloc: Global, word: &str, reader: &mut Reader<'_>) -> Result<Entry, ReadFault>
    ensures { (n : ℕ) → 2 ≤ n → Takes (λ entry. entry) result
        (rest_in (entry_change_at word.now) n reader.old) reader.new }
{
    let (name, seen, body) = operation_of(alloc, word, reader)?;
    Ok(Entry::Operation(Op { name, seen, body }))
}

impl Part for Entry {
    ghost Seen = { AnyEntry };

    ghost seen = { λ entry. entry };

    ghost read_in = { entry_of };

    ghost levels = { 3 };

    fn read(alloc: Global, reader: &mut Reader<'_>) -> Result<Entry, ReadFault> {
        let word = word_of(reader)?;
        match word {
            "join" => join_of(reader),
            "next" => next_of(reader),
            _ => change_of(alloc, word, reader),
        }
    }
}

impl Part for Arc<Entry> {
    ghost Seen = { AnyEntry };

    ghost seen = { λ entry. arc_value entry };

    ghost read_in = { entry_of };

    ghost levels = { 3 };

    fn read(alloc: Global, reader: &mut Reader<'_>) -> Result<Arc<Entry>, ReadFault> {
        let entry = Entry::read(alloc, reader)?;
        Ok(Arc::new(alloc, entry)?)
    }
}

/// Reads an entry from bytes: UTF-8 that is one JSON value, a form of the entry. Linear in the
/// bytes.
///
/// # Errors
///
/// - `Bad` if they are not such a text.
/// - `NoMemory` if an allocation failed.
pub fn read_entry(alloc: Global, bytes: &[u8]) -> Result<Entry, ReadFault>
    ensures ok { IfOk result (IsEntryText bytes.now) }
    ensures bad { IsErrOf result ReadFault.Bad → (e : AnyEntry) → ¬ IsEntryText bytes.now e }
    ensures value { IfOk result (λ entry. entry_read bytes.now ≡ Some entry) }
    ensures none { IsErrOf result ReadFault.Bad → entry_read bytes.now ≡ None }
{
    let mut scratch = Scratch::new(alloc);
    read_text(alloc, &mut scratch, bytes)
}
