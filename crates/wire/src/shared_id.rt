//! Identifiers that are shared with their texts. Of an object with many versions a change leaves
//! most identifiers as they are, and so each text is written once.

ghost use Rattle.std.specs.Prelude.{◌≡◌, ◌+◌, ◌<◌, ◌≤◌, ◌^◌, ◌++◌, [], true, length};
ghost use Rattle.std.specs.Prelude.{IfOk, IfSome, OnOk, string_bytes};
ghost use Rattle.std.specs.List.{insert};
ghost use Rattle.std.specs.List.Sorted.{IsPermutation};
ghost use Rattle.base_types.specs.VersionIds.{names_rise};
ghost use Rattle.serde_json.specs.Written.{compact_text};
ghost use Rattle.wire.specs.Form.{names_form};

use crate::write::{MOST_BYTES_MORE, compact, compact_within, insert_name};
use base_types::{NoMemory, OpName, VersionId};
use smallvec::SmallVec;
use std::alloc::Global;
use std::marker::Model;
use std::sync::Arc;

/// How many bytes are reserved for a name: two numbers of up to four digits, two brackets and two
/// commas.
const ROOM_OF_A_NAME: usize = 12;

/// For how many of these at most.
const MOST_NAMES: usize = 1024;

/// An identifier, which may have its text.
#[derive(Drop)]
struct Written {
    id: VersionId,
    text: Option<String>,
}

impl Model for Written {
    ghost use Rattle.std.specs.Prelude.{◌≡◌, List, IfSome, string_bytes};
    ghost use Rattle.serde_json.specs.Written.{compact_text};
    ghost use Rattle.base_types.specs.Names.{Name};
    ghost use Rattle.wire.specs.Form.{names_form};

    ghost Value = { List Name };

    ghost view = { λ written. written.id };

    ghost invariant = { λ written. IfSome written.text
        (λ text. string_bytes text ≡ compact_text (names_form written.id)) };
}

/// Identifiers of versions. One takes no memory: most objects have one version.
pub type SharedIds = SmallVec<SharedId, 1>;

/// The identifier of a version, which owners share. It may have its text, which `write_reply` then
/// copies. That of no names takes no memory. Contracts see the identifier.
#[derive(Drop)]
pub struct SharedId {
    written: Option<Arc<Written>>,
}

impl Model for SharedId {
    ghost use Rattle.std.specs.Prelude.{[], List, option_map, unwrap_or};
    ghost use Rattle.std.specs.Arc.{arc_value};
    ghost use Rattle.base_types.specs.Names.{Name};

    ghost Value = { List Name };

    ghost view = { λ id. unwrap_or (option_map arc_value id.written) [] };
}

/// How many bytes are reserved for the text of so many names at first.
fn bytes_for_names(names: usize) -> usize {
    names.min(MOST_NAMES) * ROOM_OF_A_NAME
}

/// A copy of names, with room for so many more.
fn copy_names(alloc: Global, names: &[OpName], more: usize) -> Result<Vec<OpName>, NoMemory>
    requires { length names.now + more < 2 ^ 64 }
    ensures { IfOk result (λ copy. copy.items ≡ names.now) }
{
    let mut copy = Vec::with_capacity(alloc, names.len() + more)?;
    copy.extend_from_slice(names)?;
    Ok(copy)
}

/// Puts a name behind the first `at` names, and into their text.
fn put_name(
    alloc: Global,
    names: &mut Vec<OpName>,
    text: &mut String,
    at: usize,
    name: OpName,
) -> Result<(), NoMemory>
    requires within { at ≤ length names.old.items }
    requires text { string_bytes text.old ≡ compact_text (names_form names.old.items) }
    ensures names { OnOk result (names.new.items ≡ insert names.old.items at name) }
    ensures text { OnOk result (string_bytes text.new ≡ compact_text (names_form names.new.items)) }
{
    insert_name(alloc, text, names, at, name)?;
    names.insert(at, name)?;
    Ok(())
}

/// Puts names among others in order, and into their text. Returns false if one is there already.
fn put_names(
    alloc: Global,
    names: &mut Vec<OpName>,
    text: &mut String,
    added: &[OpName],
) -> Result<bool, NoMemory>
    requires { string_bytes text.old ≡ compact_text (names_form names.old.items) }
    ensures names { IfOk result (λ are_new. are_new ≡ true
        → IsPermutation (added.now ++ names.old.items) names.new.items) }
    ensures text { IfOk result (λ are_new. are_new ≡ true
        → string_bytes text.new ≡ compact_text (names_form names.new.items)) }
{
    for name in added {
        let Err(at) = names.binary_search(name) else {
            return Ok(false);
        };
        put_name(alloc, names, text, at, *name)?;
    }
    Ok(true)
}

impl SharedId {
    /// The identifier with its text. Linear in its names.
    ///
    /// # Errors
    ///
    /// `NoMemory` if an allocation failed.
    pub fn with_text(alloc: Global, id: VersionId) -> Result<SharedId, NoMemory>
        ensures { IfOk result (λ shared. shared ≡ id) }
    {
        let text = if id.names().is_empty() {
            None
        } else {
            Some(compact_within(alloc, &id, bytes_for_names(id.names().len()))?)
        };
        SharedId::of_written(alloc, Written { id, text })
    }

    /// The identifier without its text.
    ///
    /// # Errors
    ///
    /// `NoMemory` if an allocation failed.
    pub fn unwritten(alloc: Global, id: VersionId) -> Result<SharedId, NoMemory>
        ensures { IfOk result (λ shared. shared ≡ id) }
    {
        SharedId::of_written(alloc, Written { id, text: None })
    }

    fn of_written(alloc: Global, written: Written) -> Result<SharedId, NoMemory>
        ensures { IfOk result (λ shared. shared ≡ written) }
    {
        if written.id.names().is_empty() {
            return Ok(SharedId::default());
        }
        let written = Some(Arc::new(alloc, written)?);
        Ok(SharedId { written })
    }

    /// The identifier with these names added, or `None` if it would then have one twice. Each is
    /// put into the text that it has, in time linear in the names and the text.
    ///
    /// # Errors
    ///
    /// `NoMemory` if an allocation failed.
    pub fn with_names(&self, alloc: Global, added: &[OpName]) -> Result<Option<SharedId>, NoMemory>
        ensures names { IfOk result (λ found.
            IfSome found (IsPermutation (added.now ++ self.now))) }
        ensures rise { IfOk result (λ found. IfSome found (λ id. names_rise id ≡ true)) }
    {
        let mut names = copy_names(alloc, self.names(), added.len())?;
        let mut text = self.text_to_grow(alloc)?;
        if !put_names(alloc, &mut names, &mut text, added)? {
            return Ok(None);
        }
        SharedId::of_rising(alloc, names, text)
    }

    /// The same identifier, with one more owner.
    ///
    /// # Errors
    ///
    /// `NoMemory` if the count of owners is at its maximum.
    pub fn share(&self) -> Result<SharedId, NoMemory>
        ensures { IfOk result (λ shared. shared ≡ self.now) }
    {
        let written = match &self.written {
            Some(written) => Some(written.clone()?),
            None => None,
        };
        Ok(SharedId { written })
    }

    /// The names, in increasing order.
    pub fn names(&self) -> &[OpName]
        ensures { result.now ≡ self.now }
    {
        match &self.written {
            Some(written) => written.id.names(),
            None => &[],
        }
    }

    /// An equal identifier with memory of its own. Linear in its names.
    ///
    /// # Errors
    ///
    /// `NoMemory` if an allocation failed.
    pub fn to_id(&self, alloc: Global) -> Result<VersionId, NoMemory>
        ensures { IfOk result (λ id. id ≡ self.now) }
    {
        match &self.written {
            Some(written) => written.id.copy(alloc),
            None => Ok(VersionId::empty(alloc)),
        }
    }

    /// The identifier of names with their text, or `None` if they don't rise.
    fn of_rising(
        alloc: Global,
        names: Vec<OpName>,
        text: String,
    ) -> Result<Option<SharedId>, NoMemory>
        requires { string_bytes text ≡ compact_text (names_form names.items) }
        ensures id { IfOk result (λ found. IfSome found (λ id. id ≡ names.items)) }
        ensures rise { IfOk result (λ found. IfSome found (λ id. names_rise id ≡ true)) }
    {
        let Ok(id) = VersionId::from_vec(names) else {
            return Ok(None);
        };
        let _ = id.names();
        let text = Some(text);
        Ok(Some(SharedId::of_written(alloc, Written { id, text })?))
    }

    /// A copy of the text, with room for one name more.
    fn text_to_grow(&self, alloc: Global) -> Result<String, NoMemory>
        ensures { IfOk result (λ text. string_bytes text ≡ compact_text (names_form self.now)) }
    {
        let Some(known) = self.text() else {
            return compact(alloc, self);
        };
        let mut text = String::with_capacity(alloc, known.len() + MOST_BYTES_MORE)?;
        text.push_str(known)?;
        Ok(text)
    }

    /// The text, if the identifier has it.
    pub(crate) fn text(&self) -> Option<&str>
        ensures { IfSome result (λ text. text.now ≡ compact_text (names_form self.now)) }
    {
        match &self.written.as_ref()?.text {
            Some(text) => Some(text.as_str()),
            None => None,
        }
    }
}

/// The identifier of no names.
impl Default for SharedId {
    ghost use Rattle.std.specs.Prelude.{◌≡◌, []};

    ghost is_default = { λ id. id ≡ [] };

    fn default() -> SharedId {
        SharedId { written: None }
    }
}

impl PartialEq for SharedId {
    ghost use Rattle.std.specs.Cmp.{partial_equiv_from_equiv};
    ghost use Rattle.base_types.specs.VersionIds.{same_names};
    ghost use Rattle.wire.specs.steps.Equality.{same_id-equivalence};

    ghost eq = { same_names };

    ghost laws = { partial_equiv_from_equiv same_id-equivalence };

    fn eq(&self, other: &SharedId) -> bool {
        self.names() == other.names()
    }
}

impl Eq for SharedId {
    ghost use Rattle.wire.specs.steps.Equality.{same_id-equivalence};

    ghost laws = { same_id-equivalence };
}
