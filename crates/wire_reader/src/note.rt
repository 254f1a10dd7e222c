//! Notes, and requests about them, from JSON.

ghost use Rattle.std.specs.Prelude.{◌≡◌, ◌≤◌, ℕ, IfOk, IsErrOf, List, None, Some, if◌then◌else◌};
ghost use Rattle.base_types.specs.Texts.{is_value_text};
ghost use Rattle.wire.specs.Form.{IsNoteRequestText};
ghost use Rattle.wire.specs.Notes.{Note};
ghost use Rattle.wire.specs.Rising.{rise, site_before};
ghost use Rattle.wire.specs.declared.note.NoteRequest.{NoteRequest as AnyNoteRequest};
ghost use Rattle.wire_reader.specs.steps.Notes.{note_in, note_request_of, note_text_in, notes_in, read_at, set_at};
ghost use Rattle.wire_reader.specs.steps.Reading.{Gives};
ghost use Rattle.wire_reader.specs.steps.Reads.{note_request_read};
ghost use Rattle.wire_reader.specs.steps.Streams.{next_in, rest_in, Takes};

use crate::fault::ReadFault;
use crate::part::{Part, list_of, read_text};
use crate::rising::rising;
use crate::token::{close_list, open_list, text_of, whole_of, word_of};
use base_types::{MAX_SITE, ValueText};
use json::{Reader, Scratch};
use std::alloc::Global;
use wire::{MAX_REQUEST_LEN, NoteList, NoteRequest};

/// The note that a text is.
fn note_text_with(alloc: Global, text: &str) -> Result<ValueText, ReadFault>
    ensures { Gives (λ note. note) result
        (if is_value_text text.now then Some text.now else None) }
{
    match base_types::Value::text(alloc, text)? {
        base_types::Value::Text(note) => Ok(note),
        base_types::Value::Number(_) => unreachable!(),
    }
}

fn note_text_of(alloc: Global, reader: &mut Reader<'_>) -> Result<ValueText, ReadFault>
    ensures { (n : ℕ) → Takes (λ note. note) result
        (next_in note_text_in n reader.old) reader.new }
{
    let text = text_of(reader)?;
    note_text_with(alloc, text)
}

/// A site with its note.
impl Part for (u32, ValueText) {
    ghost Seen = { Note };

    ghost seen = { λ note. note };

    ghost read_in = { note_in };

    ghost levels = { 1 };

    fn read(alloc: Global, reader: &mut Reader<'_>) -> Result<(u32, ValueText), ReadFault> {
        open_list(reader)?;
        let site = whole_of(reader, 1, MAX_SITE)?;
        let note = note_text_of(alloc, reader)?;
        close_list(reader)?;
        Ok((site, note))
    }
}

/// The notes, if their sites rise.
fn notes_with(notes: Vec<(u32, ValueText)>) -> Result<NoteList, ReadFault>
    ensures { Gives (λ list. list) result
        (if rise site_before notes.items then Some notes.items else None) }
{
    let notes = rising(notes)?;
    Ok(NoteList::from_vec(notes))
}

/// The notes of a room.
pub(crate) fn notes_of(alloc: Global, reader: &mut Reader<'_>) -> Result<NoteList, ReadFault>
    ensures { (n : ℕ) → 2 ≤ n → Takes (λ notes. notes) result
        (next_in notes_in n reader.old) reader.new }
{
    let notes: Vec<(u32, ValueText)> = list_of(alloc, reader)?;
    notes_with(notes)
}

fn set_of(alloc: Global, reader: &mut Reader<'_>) -> Result<NoteRequest, ReadFault>
    ensures { (n : ℕ) → Takes (λ request. request) result
        (rest_in set_at n reader.old) reader.new }
{
    let text = note_text_of(alloc, reader)?;
    close_list(reader)?;
    Ok(NoteRequest::Set { text })
}

fn read_of(reader: &mut Reader<'_>) -> Result<NoteRequest, ReadFault>
    ensures { (n : ℕ) → Takes (λ request. request) result
        (rest_in read_at n reader.old) reader.new }
{
    close_list(reader)?;
    Ok(NoteRequest::Read)
}

impl Part for NoteRequest {
    ghost Seen = { AnyNoteRequest };

    ghost seen = { λ request. request };

    ghost read_in = { note_request_of };

    ghost levels = { 1 };

    fn read(alloc: Global, reader: &mut Reader<'_>) -> Result<NoteRequest, ReadFault> {
        let word = word_of(reader)?;
        match word {
            "note" => set_of(alloc, reader),
            "notes" => read_of(reader),
            _ => Err(ReadFault::Bad),
        }
    }
}

#[tactic(auto, unfolding(crate::specs::steps::Reads::note_request_read))]
fn note_request_in_bytes(
    alloc: Global,
    scratch: &mut Scratch,
    bytes: &[u8],
) -> Result<NoteRequest, ReadFault>
    ensures { Gives (λ request. request) result (note_request_read bytes.now) }
{
    if bytes.len() > MAX_REQUEST_LEN {
        return Err(ReadFault::Bad);
    }
    read_text(alloc, scratch, bytes)
}

/// Reads a request about notes from bytes, as `read_request` reads others. No bytes are both.
///
/// # Errors
///
/// - `Bad` if they are not such a text.
/// - `NoMemory` if an allocation failed.
pub fn read_note_request(
    alloc: Global,
    scratch: &mut Scratch,
    bytes: &[u8],
) -> Result<NoteRequest, ReadFault>
    ensures ok { IfOk result (IsNoteRequestText bytes.now) }
    ensures bad { IsErrOf result ReadFault.Bad
        → (q : AnyNoteRequest) → ¬ IsNoteRequestText bytes.now q }
    ensures value { IfOk result (λ request. note_request_read bytes.now ≡ Some request) }
    ensures none { IsErrOf result ReadFault.Bad → note_request_read bytes.now ≡ None }
{
    note_request_in_bytes(alloc, scratch, bytes)
}
