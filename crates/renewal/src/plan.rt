//! What makes an object: a creation, and the puts of each of its versions.

ghost use Rattle.std.specs.Prelude.{◌≡◌, ◌<◌, length};

use crate::reason::WritingFault;
use crate::separation::{MAX_PAIRS, is_among, tag_keys, tag_of};
use crate::values::{are_alike, value_of};
use base_types::{Key, NoMemory, Value};
use rules::AttrList;
use std::alloc::Global;
use std::mem;

/// Pairs of a key and a value.
type PairList = Vec<(Key, Value)>;

/// A put of an object: the site of its version, and what it gives.
#[derive(Drop)]
pub(crate) struct PlannedPut {
    pub(crate) site: u32,
    pub(crate) pairs: PairList,
}

/// What makes an object: the attributes of its creation, and its puts. Those of a version are of one
/// site, and each is put on top of the one before.
#[derive(Drop)]
pub(crate) struct ObjectPlan {
    pub(crate) attrs: PairList,
    pub(crate) puts: Vec<PlannedPut>,
}

/// The versions of an object that is planned, with what its creation gives, and the keys of tags.
#[derive(Drop)]
struct Draft<'a> {
    versions: &'a [AttrList],
    attrs: PairList,
    tag_keys: Vec<Key>,
}

/// Puts in the making. None is empty, and only the last one may take more pairs.
#[derive(Drop)]
struct PutsInMaking {
    puts: Vec<PlannedPut>,
    /// The site of the last put.
    site: u32,
    last: PairList,
}

impl PutsInMaking {
    fn new(alloc: Global) -> PutsInMaking {
        PutsInMaking {
            puts: Vec::new(alloc),
            site: 0,
            last: Vec::new(alloc),
        }
    }

    /// Ends the last put, unless it is empty.
    fn end_put(&mut self, alloc: Global) -> Result<(), NoMemory> {
        if !self.last.is_empty() {
            let site = self.site;
            let pairs = mem::replace(&mut self.last, Vec::new(alloc));
            self.puts.push(PlannedPut { site, pairs })?;
        }
        Ok(())
    }

    /// Adds a pair to the last put, or to a further one if that is full.
    fn add_pair(&mut self, alloc: Global, key: Key, value: Value) -> Result<(), NoMemory> {
        if self.last.len() >= MAX_PAIRS {
            self.end_put(alloc)?;
        }
        self.last.push((key, value))?;
        Ok(())
    }

    /// Adds pairs to the last put, and to further ones as it is full.
    fn add(&mut self, alloc: Global, pairs: PairList) -> Result<(), NoMemory> {
        for (key, value) in pairs {
            self.add_pair(alloc, key, value)?;
        }
        Ok(())
    }
}

/// Adds a copy of a pair.
fn push_copy(
    alloc: Global,
    pairs: &mut PairList,
    key: &Key,
    value: &Value,
) -> Result<(), NoMemory> {
    let key = key.copy(alloc)?;
    let value = value.copy(alloc)?;
    pairs.push((key, value))?;
    Ok(())
}

/// The first 16 of the pairs that all versions have.
fn common_pairs(alloc: Global, versions: &[AttrList]) -> Result<PairList, NoMemory> {
    let mut pairs = Vec::new(alloc);
    let Some(first) = versions.first() else {
        return Ok(pairs);
    };
    for attr in first.as_slice() {
        if pairs.len() < MAX_PAIRS && are_alike(versions, &attr.0) {
            push_copy(alloc, &mut pairs, &attr.0, &attr.1)?;
        }
    }
    Ok(pairs)
}

/// Adds the tag of the version at this place, if it has the key.
fn push_tag(
    alloc: Global,
    tags: &mut PairList,
    draft: &Draft,
    place: usize,
    key: &Key,
) -> Result<(), WritingFault>
    requires { place < length draft.now.versions.now }
{
    if let Some(value) = value_of(draft.versions[place].as_slice(), key) {
        let tag = tag_of(alloc, draft.versions, place, key, value)?;
        let key = key.copy(alloc)?;
        tags.push((key, tag))?;
    }
    Ok(())
}

/// The tags of the version at this place.
fn tags_of(alloc: Global, draft: &Draft, place: usize) -> Result<PairList, WritingFault>
    requires { place < length draft.now.versions.now }
{
    let mut tags = Vec::new(alloc);
    for key in &draft.tag_keys {
        push_tag(alloc, &mut tags, draft, place, key)?;
    }
    Ok(tags)
}

/// The pairs of the version that neither the creation nor a tag gives.
fn other_pairs(alloc: Global, draft: &Draft, version: &AttrList) -> Result<PairList, NoMemory> {
    let mut pairs = Vec::new(alloc);
    for attr in version.as_slice() {
        if value_of(&draft.attrs, &attr.0).is_none() && !is_among(&draft.tag_keys, &attr.0) {
            push_copy(alloc, &mut pairs, &attr.0, &attr.1)?;
        }
    }
    Ok(pairs)
}

/// The version's own values of the keys whose tags are other values.
fn pairs_behind_tags(
    alloc: Global,
    version: &AttrList,
    tags: &[(Key, Value)],
) -> Result<PairList, NoMemory> {
    let mut pairs = Vec::new(alloc);
    for tag in tags {
        if let Some(value) = value_of(version.as_slice(), &tag.0) {
            if tag.1 != *value {
                push_copy(alloc, &mut pairs, &tag.0, value)?;
            }
        }
    }
    Ok(pairs)
}

/// Adds a version's first put. It has the tags, filled up with the version's other pairs, and ends
/// unless it gives nothing.
fn add_first(
    alloc: Global,
    making: &mut PutsInMaking,
    draft: &Draft,
    version: &AttrList,
    tags: PairList,
) -> Result<(), NoMemory> {
    let before = making.puts.len();
    making.add(alloc, tags)?;
    making.add(alloc, other_pairs(alloc, draft, version)?)?;
    if making.puts.len() == before {
        making.end_put(alloc)?;
    }
    Ok(())
}

/// Adds the puts of the version at this place. The values behind its tags come after its first put.
fn add_puts(
    alloc: Global,
    making: &mut PutsInMaking,
    draft: &Draft,
    place: usize,
) -> Result<(), WritingFault>
    requires { place < length draft.now.versions.now }
{
    let version = &draft.versions[place];
    let tags = tags_of(alloc, draft, place)?;
    let behind = pairs_behind_tags(alloc, version, &tags)?;
    add_first(alloc, making, draft, version, tags)?;
    making.add(alloc, behind)?;
    making.end_put(alloc)?;
    Ok(())
}

/// The puts of all versions: those of the first version by site 1, those of the second by site 2, and
/// so on.
fn puts_of(alloc: Global, draft: &Draft) -> Result<Vec<PlannedPut>, WritingFault> {
    let mut making = PutsInMaking::new(alloc);
    for place in 0..draft.versions.len() {
        making.site = making.site.saturating_add(1);
        add_puts(alloc, &mut making, draft, place)?;
    }
    Ok(making.puts)
}

/// The draft of an object with these versions.
fn draft_of<'a>(alloc: Global, versions: &'a [AttrList]) -> Result<Draft<'a>, WritingFault> {
    let attrs = common_pairs(alloc, versions)?;
    let tag_keys = tag_keys(alloc, versions, &attrs)?;
    Ok(Draft {
        versions,
        attrs,
        tag_keys,
    })
}

/// What makes an object with these versions.
///
/// # Errors
/// - `Inseparable` if nothing was found that keeps the versions apart.
/// - `NoMemory` if an allocation failed.
pub(crate) fn plan_object(
    alloc: Global,
    versions: &[AttrList],
) -> Result<ObjectPlan, WritingFault> {
    let draft = draft_of(alloc, versions)?;
    let puts = puts_of(alloc, &draft)?;
    Ok(ObjectPlan {
        attrs: draft.attrs,
        puts,
    })
}
