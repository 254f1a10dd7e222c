//! Replies as text.

ghost use Rattle.std.specs.Prelude.{◌≡◌, ◌++◌, true, map, IfOk, OnOk, string_bytes};
ghost use Rattle.serde_json.specs.Written.{compact_text};
ghost use Rattle.wire.specs.declared.reply.Reply.TheVariants.{Joined, Returned, Made, Taken};
ghost use Rattle.wire.specs.declared.reply.Reply.TheVariants.{Versions, Objects, Entries, Notes};
ghost use Rattle.wire.specs.declared.reply.Reply.TheVariants.{Renewed, No};
ghost use Rattle.wire.specs.Form.{list_form, entry_form, reply_form, IsReply, IsReplyText};
ghost use Rattle.wire.specs.Texts.{reply_text};
ghost use Rattle.wire.specs.steps.Lists.{is_list};

use super::part::{FIRST_ROOM, Written, compact_within};
use crate::lists::{EntryList, IdList, NoteList, ObjectList, VersionList};
use crate::reply::Reply;
use base_types::{Kind, NoMemory, OpName, RoomName};
use rules::Refusal;
use std::alloc::Global;

/// How many bytes are reserved for each identifier, object and version of a list.
const ROOM_OF_AN_ITEM: usize = 128;

/// For how many of these at most.
const MOST_ITEMS: usize = 64;

impl Written for EntryList {
    ghost form = { λ entries. list_form (map entry_form entries) };

    fn write(&self, alloc: Global, text: &mut String) -> Result<(), NoMemory> {
        let Some(entries) = self.text() else {
            return self.as_slice().write(alloc, text);
        };
        text.push('[')?;
        text.push_str(entries)?;
        text.push(']')?;
        Ok(())
    }
}

/// Puts the reply to a first entrance behind a text.
fn write_joined(at: u32, site: u32, alloc: Global, text: &mut String) -> Result<(), NoMemory>
    ensures { OnOk result (string_bytes text.new
        ≡ string_bytes text.old ++ compact_text (reply_form (Joined at site))) }
{
    ("joined", at, site).write(alloc, text)
}

/// Puts the reply to a further entrance behind a text.
fn write_returned(
    at: u32,
    site: u32,
    seq: u32,
    alloc: Global,
    text: &mut String,
) -> Result<(), NoMemory>
    ensures { OnOk result (string_bytes text.new
        ≡ string_bytes text.old ++ compact_text (reply_form (Returned at site seq))) }
{
    ("back", at, site, seq).write(alloc, text)
}

/// Puts the reply to an accepted creation behind a text.
fn write_made(at: u32, name: OpName, alloc: Global, text: &mut String) -> Result<(), NoMemory>
    ensures { OnOk result (string_bytes text.new
        ≡ string_bytes text.old ++ compact_text (reply_form (Made at name))) }
{
    ("made", at, name).write(alloc, text)
}

/// Puts the reply to an accepted change behind a text.
fn write_taken(at: u32, ids: &IdList, alloc: Global, text: &mut String) -> Result<(), NoMemory>
    ensures { OnOk result (string_bytes text.new
        ≡ string_bytes text.old ++ compact_text (reply_form (Taken at ids.now))) }
{
    ("taken", at, ids.as_slice()).write(alloc, text)
}

/// Puts a list of an object's versions behind a text. The object comes with its kind.
fn write_versions(
    at: u32,
    object: (OpName, &Kind),
    versions: &VersionList,
    alloc: Global,
    text: &mut String,
) -> Result<(), NoMemory>
    ensures { let reply = Versions at object.entry.0 object.entry.1.now versions.now in OnOk
        result (string_bytes text.new ≡ string_bytes text.old ++ compact_text (reply_form reply)) }
{
    let (name, kind) = object;
    ("versions", at, name, kind, versions.as_slice()).write(alloc, text)
}

/// Puts a page of a room's objects behind a text. Its place comes with the number of objects.
fn write_objects(
    at: u32,
    place: (u32, u32),
    objects: &ObjectList,
    alloc: Global,
    text: &mut String,
) -> Result<(), NoMemory>
    ensures { let reply = Objects at place.0 place.1 objects.now in OnOk
        result (string_bytes text.new ≡ string_bytes text.old ++ compact_text (reply_form reply)) }
{
    let (from, total) = place;
    ("objects", at, from, total, objects.as_slice()).write(alloc, text)
}

/// Puts a page of a room's record behind a text.
fn write_entries(
    at: u32,
    from: u32,
    entries: &EntryList,
    alloc: Global,
    text: &mut String,
) -> Result<(), NoMemory>
    ensures { OnOk result (string_bytes text.new
        ≡ string_bytes text.old ++ compact_text (reply_form (Entries at from entries.now))) }
{
    ("entries", at, from, entries).write(alloc, text)
}

/// Puts the notes of a room behind a text.
fn write_notes(at: u32, notes: &NoteList, alloc: Global, text: &mut String) -> Result<(), NoMemory>
    ensures { OnOk result (string_bytes text.new
        ≡ string_bytes text.old ++ compact_text (reply_form (Notes at notes.now))) }
{
    ("notes", at, notes.as_slice()).write(alloc, text)
}

/// Puts a reply with a list of what a room has behind a text.
fn write_list(reply: &Reply, alloc: Global, text: &mut String) -> Result<(), NoMemory>
    requires { is_list reply.now ≡ true }
    ensures { OnOk result (string_bytes text.new
        ≡ string_bytes text.old ++ compact_text (reply_form reply.now)) }
{
    match reply {
        Reply::Versions {
            at,
            object,
            kind,
            versions,
        } => write_versions(*at, (*object, kind), versions, alloc, text),
        Reply::Objects {
            at,
            from,
            total,
            objects,
        } => write_objects(*at, (*from, *total), objects, alloc, text),
        Reply::Entries { at, from, entries } => write_entries(*at, *from, entries, alloc, text),
        Reply::Notes { at, notes } => write_notes(*at, notes, alloc, text),
        _ => unreachable!(),
    }
}

/// Puts the reply that a room's chain goes on in this one behind a text.
fn write_renewal(at: u32, room: &RoomName, alloc: Global, text: &mut String) -> Result<(), NoMemory>
    ensures { OnOk result (string_bytes text.new
        ≡ string_bytes text.old ++ compact_text (reply_form (Renewed at room.now))) }
{
    ("renewed", at, room.text()).write(alloc, text)
}

/// Puts a refusal behind a text.
fn write_refusal(
    at: u32,
    refusal: Refusal,
    alloc: Global,
    text: &mut String,
) -> Result<(), NoMemory>
    ensures { OnOk result (string_bytes text.new
        ≡ string_bytes text.old ++ compact_text (reply_form (No at refusal))) }
{
    ("no", at, refusal.code(), refusal.word()).write(alloc, text)
}

impl Written for Reply {
    ghost form = { reply_form };

    fn write(&self, alloc: Global, text: &mut String) -> Result<(), NoMemory> {
        match self {
            Reply::Joined { at, site } => write_joined(*at, *site, alloc, text),
            Reply::Returned { at, site, seq } => write_returned(*at, *site, *seq, alloc, text),
            Reply::Made { at, name } => write_made(*at, *name, alloc, text),
            Reply::Taken { at, ids } => write_taken(*at, ids, alloc, text),
            Reply::Left { at } => ("left", *at).write(alloc, text),
            Reply::Renewed { at, room } => write_renewal(*at, room, alloc, text),
            Reply::No { at, refusal } => write_refusal(*at, *refusal, alloc, text),
            _ => write_list(self, alloc, text),
        }
    }
}

/// How many bytes are reserved for the text of a reply at first. Long lists need more.
fn bytes_for(reply: &Reply) -> usize {
    let items = match reply {
        // An answer with one identifier is short.
        Reply::Taken { ids, .. } => ids.as_slice().len().saturating_sub(1),
        Reply::Versions { versions, .. } => versions.as_slice().len(),
        Reply::Objects { objects, .. } => objects.as_slice().len(),
        _ => 0,
    };
    FIRST_ROOM + items.min(MOST_ITEMS) * ROOM_OF_AN_ITEM
}

/// The compact text of a reply: its form without white space. `read_reply` reads it back if the
/// reply is in range. Linear in the text.
///
/// # Errors
///
/// `NoMemory` if an allocation failed.
#[tactic(auto, unfolding(crate::specs::Texts::reply_text))]
pub fn write_reply(alloc: Global, reply: &Reply) -> Result<String, NoMemory>
    ensures text { IfOk result (λ text. string_bytes text ≡ reply_text reply.now) }
    ensures is_read { IfOk result (λ text. IsReply reply.now
        → IsReplyText (string_bytes text) reply.now) }
{
    compact_within(alloc, reply, bytes_for(reply))
}
