//! The lists in replies. Contracts see each as the plain list of its members.

ghost use Rattle.std.specs.Prelude.{◌≡◌, ◌++◌, ◌∷◌, [], IfOk, IfSome, OnOk, map, string_bytes};
ghost use Rattle.std.specs.Arc.{arc_value};
ghost use Rattle.wire.specs.steps.Pages.{entries_text};

use crate::shared_id::{SharedId, SharedIds};
use base_types::{Kind, NoMemory, OpName, ValueText, VersionId};
use rules::{Entry, Version};
use std::alloc::Global;
use std::marker::Model;
use std::sync::Arc;

/// The identifiers of an object's versions. Each is shared with the object.
#[derive(Drop)]
pub struct IdList {
    ids: SharedIds,
}

impl Model for IdList {
    ghost use Rattle.std.specs.Prelude.{List};
    ghost use Rattle.rules.specs.Names.{Name};

    ghost Value = { List (List Name) };

    ghost view = { λ list. list.ids.items };
}

/// Appends an identifier without its text.
fn push_unwritten(alloc: Global, shared: &mut SharedIds, id: VersionId) -> Result<(), NoMemory>
    ensures { OnOk result (shared.new.items ≡ shared.old.items ++ id ∷ []) }
{
    shared.push(SharedId::unwritten(alloc, id)?)?;
    Ok(())
}

impl IdList {
    /// These identifiers, in their order. Takes no memory.
    pub fn from_ids(ids: SharedIds) -> IdList
        ensures { result ≡ ids.items }
    {
        IdList { ids }
    }

    /// These identifiers without their texts, in their order. Takes memory for each.
    ///
    /// # Errors
    ///
    /// `NoMemory` if an allocation failed.
    pub fn unwritten(alloc: Global, ids: Vec<VersionId>) -> Result<IdList, NoMemory>
        ensures { IfOk result (λ list. list ≡ ids.items) }
    {
        let mut shared = SharedIds::with_capacity(alloc, ids.len())?;
        for id in ids {
            push_unwritten(alloc, &mut shared, id)?;
        }
        Ok(IdList { ids: shared })
    }

    /// The identifiers.
    pub fn as_slice(&self) -> &[SharedId]
        ensures { result.now ≡ self.now }
    {
        self.ids.as_slice()
    }
}

impl PartialEq for IdList {
    ghost use Rattle.std.specs.Cmp.{partial_equiv_from_equiv};
    ghost use Rattle.wire.specs.steps.Equality.{same_ids, same_ids-equivalence};

    ghost eq = { same_ids };

    ghost laws = { partial_equiv_from_equiv same_ids-equivalence };

    fn eq(&self, other: &IdList) -> bool {
        self.ids.as_slice() == other.ids.as_slice()
    }
}

impl Eq for IdList {
    ghost use Rattle.wire.specs.steps.Equality.{same_ids-equivalence};

    ghost laws = { same_ids-equivalence };
}

/// The versions of an object.
#[derive(Drop)]
pub struct VersionList {
    versions: Vec<Version>,
}

impl Model for VersionList {
    ghost use Rattle.std.specs.Prelude.{List};
    ghost use Rattle.rules.specs.declared.version.Version.{Version};

    ghost Value = { List Version };

    ghost view = { λ list. list.versions.items };
}

impl VersionList {
    /// These versions, in their order. Takes no memory.
    pub fn from_vec(versions: Vec<Version>) -> VersionList
        ensures { result ≡ versions.items }
    {
        VersionList { versions }
    }

    /// The versions.
    pub fn as_slice(&self) -> &[Version]
        ensures { result.now ≡ self.now }
    {
        &self.versions
    }
}

impl PartialEq for VersionList {
    ghost use Rattle.std.specs.Cmp.{partial_equiv_from_equiv};
    ghost use Rattle.wire.specs.steps.Equality.{same_versions, same_versions-equivalence};

    ghost eq = { same_versions };

    ghost laws = { partial_equiv_from_equiv same_versions-equivalence };

    fn eq(&self, other: &VersionList) -> bool {
        self.versions.as_slice() == other.versions.as_slice()
    }
}

impl Eq for VersionList {
    ghost use Rattle.wire.specs.steps.Equality.{same_versions-equivalence};

    ghost laws = { same_versions-equivalence };
}

/// Objects with their kinds.
#[derive(Drop)]
pub struct ObjectList {
    objects: Vec<(OpName, Kind)>,
}

impl Model for ObjectList {
    ghost use Rattle.std.specs.Prelude.{List};
    ghost use Rattle.rules.specs.Names.{Name};
    ghost use Rattle.rules.specs.Texts.{Bytes};

    ghost Value = { List (Name × Bytes) };

    ghost view = { λ list. list.objects.items };
}

impl ObjectList {
    /// These objects, in their order. Takes no memory.
    pub fn from_vec(objects: Vec<(OpName, Kind)>) -> ObjectList
        ensures { result ≡ objects.items }
    {
        ObjectList { objects }
    }

    /// The objects with their kinds.
    pub fn as_slice(&self) -> &[(OpName, Kind)]
        ensures { result.now ≡ self.now }
    {
        &self.objects
    }
}

impl PartialEq for ObjectList {
    ghost use Rattle.std.specs.Cmp.{partial_equiv_from_equiv};
    ghost use Rattle.wire.specs.steps.Equality.{same_objects, same_objects-equivalence};

    ghost eq = { same_objects };

    ghost laws = { partial_equiv_from_equiv same_objects-equivalence };

    fn eq(&self, other: &ObjectList) -> bool {
        self.objects.as_slice() == other.objects.as_slice()
    }
}

impl Eq for ObjectList {
    ghost use Rattle.wire.specs.steps.Equality.{same_objects-equivalence};

    ghost laws = { same_objects-equivalence };
}

/// Notes, each with its site.
#[derive(Drop)]
pub struct NoteList {
    notes: Vec<(u32, ValueText)>,
}

impl Model for NoteList {
    ghost use Rattle.std.specs.Prelude.{List};
    ghost use Rattle.wire.specs.Notes.{Note};

    ghost Value = { List Note };

    ghost view = { λ list. list.notes.items };
}

impl NoteList {
    /// These notes, in their order. Takes no memory.
    pub fn from_vec(notes: Vec<(u32, ValueText)>) -> NoteList
        ensures { result ≡ notes.items }
    {
        NoteList { notes }
    }

    /// The notes with their sites.
    pub fn as_slice(&self) -> &[(u32, ValueText)]
        ensures { result.now ≡ self.now }
    {
        &self.notes
    }
}

impl PartialEq for NoteList {
    ghost use Rattle.std.specs.Cmp.{partial_equiv_from_equiv};
    ghost use Rattle.wire.specs.steps.Equality.{same_notes, same_notes-equivalence};

    ghost eq = { same_notes };

    ghost laws = { partial_equiv_from_equiv same_notes-equivalence };

    fn eq(&self, other: &NoteList) -> bool {
        self.notes.as_slice() == other.notes.as_slice()
    }
}

impl Eq for NoteList {
    ghost use Rattle.wire.specs.steps.Equality.{same_notes-equivalence};

    ghost laws = { same_notes-equivalence };
}

/// Entries of a record. Each is shared with the record that stores it. A list may have its text,
/// which `write_reply` then copies.
#[derive(Drop)]
pub struct EntryList {
    entries: Vec<Arc<Entry>>,
    text: Option<String>,
}

impl Model for EntryList {
    ghost use Rattle.std.specs.Prelude.{◌≡◌, List, IfSome, map, string_bytes};
    ghost use Rattle.std.specs.Arc.{arc_value};
    ghost use Rattle.rules.specs.declared.history.Entry.{Entry};

    ghost Value = { List Entry };

    ghost use Rattle.wire.specs.steps.Pages.{entries_text};

    ghost view = { λ list. map arc_value list.entries.items };

    ghost invariant = { λ list. IfSome list.text
        (λ text. string_bytes text ≡ entries_text (map arc_value list.entries.items)) };
}

impl EntryList {
    /// These entries, in their order. Takes no memory.
    pub fn from_vec(entries: Vec<Arc<Entry>>) -> EntryList
        ensures { result ≡ map arc_value entries.items }
    {
        EntryList {
            entries,
            text: None,
        }
    }

    /// These entries, in their order, and their text, which `write_reply` then copies. Takes no
    /// memory.
    pub fn with_text(entries: Vec<Arc<Entry>>, text: String) -> EntryList
        requires { string_bytes text ≡ entries_text (map arc_value entries.items) }
        ensures { result ≡ map arc_value entries.items }
    {
        EntryList {
            entries,
            text: Some(text),
        }
    }

    /// The entries.
    pub fn as_slice(&self) -> &[Arc<Entry>]
        ensures { map arc_value result.now ≡ self.now }
    {
        &self.entries
    }

    /// The text of the list without its brackets, if the list has it.
    pub(crate) fn text(&self) -> Option<&str>
        ensures { IfSome result (λ text. text.now ≡ entries_text self.now) }
    {
        match &self.text {
            Some(text) => Some(text.as_str()),
            None => None,
        }
    }
}

impl PartialEq for EntryList {
    ghost use Rattle.std.specs.Cmp.{partial_equiv_from_equiv};
    ghost use Rattle.wire.specs.steps.Equality.{same_entries, same_entries-equivalence};

    ghost eq = { same_entries };

    ghost laws = { partial_equiv_from_equiv same_entries-equivalence };

    fn eq(&self, other: &EntryList) -> bool {
        self.entries.as_slice() == other.entries.as_slice()
    }
}

impl Eq for EntryList {
    ghost use Rattle.wire.specs.steps.Equality.{same_entries-equivalence};

    ghost laws = { same_entries-equivalence };
}
