//! Replies from JSON.

ghost use Rattle.std.specs.Prelude.{◌≡◌, ◌≤◌, List, ℕ, IfOk, IsErrOf, Some, None, bytes_eq, codes, if◌then◌else◌};
ghost use Rattle.rules.specs.declared.version.Version.{Version as AnyVersion};
ghost use Rattle.wire.specs.declared.reply.Reply.{Reply as AnyReply};
ghost use Rattle.rules.specs.declared.version.Shown.TheVariants.{Gone};
ghost use Rattle.wire.specs.Rising.{rise, attr_before, id_before, version_before};
ghost use Rattle.wire.specs.Form.{IsReplyText};
ghost use Rattle.wire_reader.specs.steps.Reading.{Gives, whole_in, id_in, no_others};
ghost use Rattle.wire_reader.specs.steps.Replies.{at_in, ids_in, shown_attrs_at, shown_in, version_in, versions_in, object_in, joined_at, returned_at, made_at, taken_at, versions_at, objects_at, entries_at, left_at, notes_reply_at, renewed_at, refusal_with, refusal_fields, no_at, reply_of, other_words};
ghost use Rattle.wire_reader.specs.steps.Reads.{reply_read};
ghost use Rattle.wire_reader.specs.steps.Streams.{next_in, rest_by_word, rest_in, Takes};

use crate::fault::ReadFault;
use crate::note::notes_of;
use crate::part::{Part, id_of, kind_of, list_of, name_of, others_of, read_text, room_of};
use crate::rising::rising;
use crate::token::{begins_list, close_list, open_list, string_of, text_of, whole_of, word_of};
use base_types::{Key, Kind, MAX_SITE, OpName, VersionId};
use json::{Reader, Scratch};
use rules::{AttrList, Entry, Limits, MAX_REFUSAL_CODE, Refusal, Shown, Version};
use std::alloc::Global;
use std::sync::Arc;
use wire::{EntryList, IdList, MAX_FROM, ObjectList, Reply, VersionList};

/// A number of entries, objects or operations, or a place in the record.
fn at_of(reader: &mut Reader<'_>) -> Result<u32, ReadFault>
    ensures { (n : ℕ) → Takes (λ at. at) result
        (next_in at_in n reader.old) reader.new }
{
    whole_of(reader, 0, Limits::MAX_ENTRIES)
}

/// The place at which a page starts.
fn from_of(reader: &mut Reader<'_>) -> Result<u32, ReadFault>
    ensures { (n : ℕ) → Takes (λ from. from) result
        (next_in (whole_in 0 MAX_FROM) n reader.old) reader.new }
{
    whole_of(reader, 0, MAX_FROM)
}

impl Part for VersionId {
    ghost Seen = { List (ℕ × ℕ) };

    ghost seen = { λ id. id };

    ghost read_in = { id_in };

    ghost levels = { 2 };

    fn read(alloc: Global, reader: &mut Reader<'_>) -> Result<VersionId, ReadFault> {
        id_of(alloc, reader)
    }
}

/// The identifiers, if they rise.
fn ids_with(alloc: Global, ids: Vec<VersionId>) -> Result<IdList, ReadFault>
    ensures { Gives (λ list. list) result
        (if rise id_before ids.items then Some ids.items else None) }
{
    let ids = rising(ids)?;
    Ok(IdList::unwritten(alloc, ids)?)
}

fn ids_of(alloc: Global, reader: &mut Reader<'_>) -> Result<IdList, ReadFault>
    ensures { (n : ℕ) → 3 ≤ n → Takes (λ ids. ids) result
        (next_in ids_in n reader.old) reader.new }
{
    let ids: Vec<VersionId> = list_of(alloc, reader)?;
    ids_with(alloc, ids)
}

/// The attributes of a version, if their keys rise.
fn attrs_with(attrs: Vec<(Key, base_types::Value)>) -> Result<AttrList, ReadFault>
    ensures { Gives (λ list. list) result
        (if rise attr_before attrs.items then Some attrs.items else None) }
{
    let attrs = rising(attrs)?;
    Ok(AttrList::from_vec(attrs))
}

/// The attributes of a version, after the bracket that begins their list.
fn attrs_after(alloc: Global, reader: &mut Reader<'_>) -> Result<AttrList, ReadFault>
    ensures { (n : ℕ) → 1 ≤ n → Takes (λ attrs. attrs) result
        (rest_in shown_attrs_at n reader.old) reader.new }
{
    let attrs: Vec<(Key, base_types::Value)> = others_of(alloc, reader)?;
    attrs_with(attrs)
}

/// What a text in place of attributes shows of a version: that it is gone.
fn gone_with(text: &str) -> Result<Shown, ReadFault>
    ensures { Gives (λ shown. shown) result
        (if bytes_eq text.now (codes "gone") then Some Gone else None) }
{
    match text {
        "gone" => Ok(Shown::Gone),
        _ => Err(ReadFault::Bad),
    }
}

fn shown_of(alloc: Global, reader: &mut Reader<'_>) -> Result<Shown, ReadFault>
    ensures { (n : ℕ) → 2 ≤ n → Takes (λ shown. shown) result
        (next_in shown_in n reader.old) reader.new }
{
    let Some(token) = reader.next() else {
        return Err(ReadFault::Bad);
    };
    if let Some(text) = string_of(token) {
        return gone_with(text);
    }
    if !begins_list(token) {
        return Err(ReadFault::Bad);
    }
    let attrs = attrs_after(alloc, reader)?;
    Ok(Shown::Attrs(attrs))
}

impl Part for Version {
    ghost Seen = { AnyVersion };

    ghost seen = { λ version. version };

    ghost read_in = { version_in };

    ghost levels = { 3 };

    fn read(alloc: Global, reader: &mut Reader<'_>) -> Result<Version, ReadFault> {
        open_list(reader)?;
        let id = id_of(alloc, reader)?;
        let shown = shown_of(alloc, reader)?;
        close_list(reader)?;
        Ok(Version { id, shown })
    }
}

/// The versions, if their identifiers rise.
fn versions_with(versions: Vec<Version>) -> Result<VersionList, ReadFault>
    ensures { Gives (λ list. list) result
        (if rise version_before versions.items then Some versions.items else None) }
{
    let versions = rising(versions)?;
    Ok(VersionList::from_vec(versions))
}

fn versions_list_of(alloc: Global, reader: &mut Reader<'_>) -> Result<VersionList, ReadFault>
    ensures { (n : ℕ) → 4 ≤ n → Takes (λ versions. versions) result
        (next_in versions_in n reader.old) reader.new }
{
    let versions: Vec<Version> = list_of(alloc, reader)?;
    versions_with(versions)
}

/// An object with its kind.
impl Part for (OpName, Kind) {
    ghost Seen = { (ℕ × ℕ) × List ℕ };

    ghost seen = { λ object. object };

    ghost read_in = { object_in };

    ghost levels = { 2 };

    fn read(alloc: Global, reader: &mut Reader<'_>) -> Result<(OpName, Kind), ReadFault> {
        open_list(reader)?;
        let name = name_of(reader)?;
        let kind = kind_of(alloc, reader)?;
        close_list(reader)?;
        Ok((name, kind))
    }
}

fn joined_of(reader: &mut Reader<'_>) -> Result<Reply, ReadFault>
    ensures { (n : ℕ) → Takes (λ reply. reply) result
        (rest_in joined_at n reader.old) reader.new }
{
    let at = at_of(reader)?;
    let site = whole_of(reader, 1, MAX_SITE)?;
    close_list(reader)?;
    Ok(Reply::Joined { at, site })
}

fn returned_of(reader: &mut Reader<'_>) -> Result<Reply, ReadFault>
    ensures { (n : ℕ) → Takes (λ reply. reply) result
        (rest_in returned_at n reader.old) reader.new }
{
    let at = at_of(reader)?;
    let site = whole_of(reader, 1, MAX_SITE)?;
    let seq = at_of(reader)?;
    close_list(reader)?;
    Ok(Reply::Returned { at, site, seq })
}

fn made_of(reader: &mut Reader<'_>) -> Result<Reply, ReadFault>
    ensures { (n : ℕ) → 1 ≤ n → Takes (λ reply. reply) result
        (rest_in made_at n reader.old) reader.new }
{
    let at = at_of(reader)?;
    let name = name_of(reader)?;
    close_list(reader)?;
    Ok(Reply::Made { at, name })
}

fn taken_of(alloc: Global, reader: &mut Reader<'_>) -> Result<Reply, ReadFault>
    ensures { (n : ℕ) → 3 ≤ n → Takes (λ reply. reply) result
        (rest_in taken_at n reader.old) reader.new }
{
    let at = at_of(reader)?;
    let ids = ids_of(alloc, reader)?;
    close_list(reader)?;
    Ok(Reply::Taken { at, ids })
}

fn versions_of(alloc: Global, reader: &mut Reader<'_>) -> Result<Reply, ReadFault>
    ensures { (n : ℕ) → 4 ≤ n → Takes (λ reply. reply) result
        (rest_in versions_at n reader.old) reader.new }
{
    let at = at_of(reader)?;
    let object = name_of(reader)?;
    let kind = kind_of(alloc, reader)?;
    let versions = versions_list_of(alloc, reader)?;
    close_list(reader)?;
    Ok(Reply::Versions {
        at,
        object,
        kind,
        versions,
    })
}

fn objects_of(alloc: Global, reader: &mut Reader<'_>) -> Result<Reply, ReadFault>
    ensures { (n : ℕ) → 4 ≤ n → Takes (λ reply. reply) result
        (rest_in objects_at n reader.old) reader.new }
{
    let at = at_of(reader)?;
    let from = from_of(reader)?;
    let total = at_of(reader)?;
    let objects: Vec<(OpName, Kind)> = list_of(alloc, reader)?;
    close_list(reader)?;
    Ok(Reply::Objects {
        at,
        from,
        total,
        objects: ObjectList::from_vec(objects),
    })
}

fn entries_of(alloc: Global, reader: &mut Reader<'_>) -> Result<Reply, ReadFault>
    ensures { (n : ℕ) → 4 ≤ n → Takes (λ reply. reply) result
        (rest_in entries_at n reader.old) reader.new }
{
    let at = at_of(reader)?;
    let from = from_of(reader)?;
    let entries: Vec<Arc<Entry>> = list_of(alloc, reader)?;
    close_list(reader)?;
    Ok(Reply::Entries {
        at,
        from,
        entries: EntryList::from_vec(entries),
    })
}

fn left_of(reader: &mut Reader<'_>) -> Result<Reply, ReadFault>
    ensures { (n : ℕ) → Takes (λ reply. reply) result
        (rest_in left_at n reader.old) reader.new }
{
    let at = at_of(reader)?;
    close_list(reader)?;
    Ok(Reply::Left { at })
}

fn all_notes_of(alloc: Global, reader: &mut Reader<'_>) -> Result<Reply, ReadFault>
    ensures { (n : ℕ) → 2 ≤ n → Takes (λ reply. reply) result
        (rest_in notes_reply_at n reader.old) reader.new }
{
    let at = at_of(reader)?;
    let notes = notes_of(alloc, reader)?;
    close_list(reader)?;
    Ok(Reply::Notes { at, notes })
}

fn renewed_of(alloc: Global, reader: &mut Reader<'_>) -> Result<Reply, ReadFault>
    ensures { (n : ℕ) → Takes (λ reply. reply) result
        (rest_in renewed_at n reader.old) reader.new }
{
    let at = at_of(reader)?;
    let room = room_of(alloc, reader)?;
    close_list(reader)?;
    Ok(Reply::Renewed { at, room })
}

/// The refusal of this number and word.
#[tactic(auto, unfolding(crate::specs::steps::Replies::refusal_with))]
fn refusal_with(code: u32, word: &str) -> Result<Refusal, ReadFault>
    ensures { Gives (λ refusal. refusal) result (refusal_with code word.now) }
{
    let refusal = Refusal::from_code(code).ok_or(ReadFault::Bad)?;
    if refusal.word() == word {
        Ok(refusal)
    } else {
        Err(ReadFault::Bad)
    }
}

/// The number and the word of a refusal, to the end of their list.
fn refusal_of(reader: &mut Reader<'_>) -> Result<Refusal, ReadFault>
    ensures { (n : ℕ) → Takes (λ refusal. refusal) result
        (rest_in refusal_fields n reader.old) reader.new }
{
    let code = whole_of(reader, 1, MAX_REFUSAL_CODE)?;
    let word = text_of(reader)?;
    close_list(reader)?;
    refusal_with(code, word)
}

fn no_of(reader: &mut Reader<'_>) -> Result<Reply, ReadFault>
    ensures { (n : ℕ) → Takes (λ reply. reply) result (rest_in no_at n reader.old) reader.new }
{
    let at = at_of(reader)?;
    let refusal = refusal_of(reader)?;
    Ok(Reply::No { at, refusal })
}

/// A reply of one of the other words.
fn other_of(alloc: Global, word: &str, reader: &mut Reader<'_>) -> Result<Reply, ReadFault>
    ensures { (n : ℕ) → 4 ≤ n → Takes (λ reply. reply) result
        (rest_by_word other_words no_others word.now n reader.old) reader.new }
{
    match word {
        "objects" => objects_of(alloc, reader),
        "entries" => entries_of(alloc, reader),
        "left" => left_of(reader),
        "notes" => all_notes_of(alloc, reader),
        "renewed" => renewed_of(alloc, reader),
        "no" => no_of(reader),
        _ => Err(ReadFault::Bad),
    }
}

impl Part for Reply {
    ghost Seen = { AnyReply };

    ghost seen = { λ reply. reply };

    ghost read_in = { reply_of };

    ghost levels = { 5 };

    fn read(alloc: Global, reader: &mut Reader<'_>) -> Result<Reply, ReadFault> {
        let word = word_of(reader)?;
        match word {
            "joined" => joined_of(reader),
            "back" => returned_of(reader),
            "made" => made_of(reader),
            "taken" => taken_of(alloc, reader),
            "versions" => versions_of(alloc, reader),
            _ => other_of(alloc, word, reader),
        }
    }
}

/// Reads a reply from bytes: UTF-8 that is one JSON value, a form of the reply. Linear in the
/// bytes.
///
/// # Errors
///
/// - `Bad` if they are not such a text.
/// - `NoMemory` if an allocation failed.
pub fn read_reply(alloc: Global, bytes: &[u8]) -> Result<Reply, ReadFault>
    ensures ok { IfOk result (IsReplyText bytes.now) }
    ensures bad { IsErrOf result ReadFault.Bad → (r : AnyReply) → ¬ IsReplyText bytes.now r }
    ensures value { IfOk result (λ reply. reply_read bytes.now ≡ Some reply) }
    ensures none { IsErrOf result ReadFault.Bad → reply_read bytes.now ≡ None }
{
    let mut scratch = Scratch::new(alloc);
    read_text(alloc, &mut scratch, bytes)
}
