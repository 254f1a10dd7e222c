//! Keys that keep the versions of an object apart.
//!
//! The first puts of two versions are concurrent. If they give one key two values, the two versions
//! conflict, and so do all puts on top of them. So the first put of each version has *tags*: values
//! of some keys, such that any two versions have one of these keys in common, and no two versions
//! have the same tag of a key. Where a tag is not the version's own value, a later put gives that.

ghost use Rattle.std.specs.Prelude.{◌≡◌, ◌≤◌, length};

use crate::reason::{Reason, WritingFault};
use crate::values::{are_alike, do_all_differ, has, is_given, value_of};
use base_types::{Key, NoMemory, Value};
use rules::AttrList;
use std::alloc::Global;

/// The greatest number of pairs in a put, and of attributes in a creation.
pub(crate) const MAX_PAIRS: usize = 16;

/// How many numbers a block has from which tags are taken: more than an object has versions.
const BLOCK_LEN: u32 = 64;

/// Two versions of an object, by their places.
#[derive(Clone, Copy)]
struct Couple {
    first: usize,
    second: usize,
}

/// How good a key is to keep versions apart. A greater rank is better.
#[derive(Clone, Copy, PartialEq, Eq, PartialOrd, Ord)]
struct Rank {
    /// How many of the couples have the key in both versions.
    couples: usize,
    /// Whether no two versions have the same value of the key. Then each tag is a real value.
    do_all_differ: bool,
    /// Whether the versions are not all alike in the key. Otherwise the creation can give it.
    is_varied: bool,
}

/// Returns whether the key is one of these.
pub(crate) fn is_among(keys: &[Key], key: &Key) -> bool {
    keys.iter().any(|other| *other == *key)
}

/// Adds copies of the version's keys that are not yet among the keys, nor in `without`.
fn add_keys(
    alloc: Global,
    keys: &mut Vec<Key>,
    version: &AttrList,
    without: &[(Key, Value)],
) -> Result<(), NoMemory> {
    for attr in version.as_slice() {
        if !is_among(keys, &attr.0) && value_of(without, &attr.0).is_none() {
            keys.push(attr.0.copy(alloc)?)?;
        }
    }
    Ok(())
}

/// The keys of all versions, each once, except those of `without`.
fn keys_of(
    alloc: Global,
    versions: &[AttrList],
    without: &[(Key, Value)],
) -> Result<Vec<Key>, NoMemory> {
    let mut keys = Vec::new(alloc);
    for version in versions {
        add_keys(alloc, &mut keys, version, without)?;
    }
    Ok(keys)
}

/// Adds the couples of which this is the later version.
fn add_couples(couples: &mut Vec<Couple>, second: usize) -> Result<(), NoMemory> {
    for first in 0..second {
        couples.push(Couple { first, second })?;
    }
    Ok(())
}

/// All couples of so many versions.
fn all_couples(alloc: Global, count: usize) -> Result<Vec<Couple>, NoMemory> {
    let mut couples = Vec::new(alloc);
    for second in 0..count {
        add_couples(&mut couples, second)?;
    }
    Ok(couples)
}

/// Returns whether both versions have the key.
fn have_both(versions: &[AttrList], couple: Couple, key: &Key) -> bool {
    match (versions.get(couple.first), versions.get(couple.second)) {
        (Some(first), Some(second)) => has(first, key) && has(second, key),
        _ => false,
    }
}

/// The couples that the key does not keep apart.
fn left_by(
    alloc: Global,
    versions: &[AttrList],
    couples: &[Couple],
    key: &Key,
) -> Result<Vec<Couple>, NoMemory> {
    let mut left = Vec::new(alloc);
    for couple in couples {
        if !have_both(versions, *couple, key) {
            left.push(*couple)?;
        }
    }
    Ok(left)
}

/// The rank of a key for these couples.
fn rank_of(versions: &[AttrList], couples: &[Couple], key: &Key) -> Rank {
    Rank {
        couples: couples
            .iter()
            .filter(|couple| have_both(versions, **couple, key))
            .count(),
        do_all_differ: do_all_differ(versions, key),
        is_varied: !are_alike(versions, key),
    }
}

/// The first key of the highest rank, if any couple has one of the keys.
fn best_of<'a>(versions: &[AttrList], couples: &[Couple], keys: &'a [Key]) -> Option<&'a Key> {
    let highest = Rank {
        couples: couples.len(),
        do_all_differ: true,
        is_varied: true,
    };
    let mut best: Option<(Rank, &'a Key)> = None;
    for key in keys {
        let rank = rank_of(versions, couples, key);
        if rank == highest {
            return Some(key);
        }
        let is_better = match best {
            Some((other, _)) => rank > other,
            None => rank.couples > 0,
        };
        if is_better {
            best = Some((rank, key));
        }
    }
    match best {
        Some((_, key)) => Some(key),
        None => None,
    }
}

/// Adds a copy of the key that keeps most of the couples apart. Returns the couples that are left.
/// `None` if none of the keys keeps one apart.
fn keep_apart(
    alloc: Global,
    versions: &[AttrList],
    keys: &[Key],
    couples: &[Couple],
    found: &mut Vec<Key>,
) -> Result<Option<Vec<Couple>>, NoMemory> {
    let Some(key) = best_of(versions, couples, keys) else {
        return Ok(None);
    };
    found.push(key.copy(alloc)?)?;
    Ok(Some(left_by(alloc, versions, couples, key)?))
}

/// Adds copies of some of the keys, such that any two versions have one of these in common: at each
/// step the best one for the couples that are left. Returns false if some two versions have none
/// of the keys in common.
fn separate(
    alloc: Global,
    versions: &[AttrList],
    keys: &[Key],
    found: &mut Vec<Key>,
) -> Result<bool, NoMemory> {
    let mut couples = all_couples(alloc, versions.len())?;
    for _ in 0..couples.len() {
        if couples.is_empty() {
            break;
        }
        match keep_apart(alloc, versions, keys, &couples, found)? {
            Some(left) => couples = left,
            None => return Ok(false),
        }
    }
    Ok(true)
}

/// Some of the versions' keys, except those of `without`, such that any two versions have one of
/// them in common. `None` if there are no such keys.
fn separating(
    alloc: Global,
    versions: &[AttrList],
    without: &[(Key, Value)],
) -> Result<Option<Vec<Key>>, NoMemory> {
    let keys = keys_of(alloc, versions, without)?;
    let mut found = Vec::new(alloc);
    if separate(alloc, versions, &keys, &mut found)? {
        Ok(Some(found))
    } else {
        Ok(None)
    }
}

/// As `separating`, but with keys of `without` where the others do not suffice.
fn separating_at_last(
    alloc: Global,
    versions: &[AttrList],
    without: &[(Key, Value)],
) -> Result<Option<Vec<Key>>, NoMemory> {
    match separating(alloc, versions, without)? {
        Some(keys) => Ok(Some(keys)),
        None => separating(alloc, versions, &[]),
    }
}

/// The keys of which the first puts have tags: mostly one, and none for an object of one version.
/// Keys that the creation gives are taken only where the others do not suffice, so puts have no
/// more keys than they must.
///
/// # Errors
/// - `Inseparable` if no keys were found, or a version has more than 16 of them.
/// - `NoMemory` if an allocation failed.
pub(crate) fn tag_keys(
    alloc: Global,
    versions: &[AttrList],
    created: &[(Key, Value)],
) -> Result<Vec<Key>, WritingFault> {
    match separating_at_last(alloc, versions, created)? {
        Some(keys) if versions.iter().all(|version| fit_in_a_put(version, &keys)) => Ok(keys),
        _ => Err(Reason::Inseparable.into()),
    }
}

/// Returns whether one put can give all those of the keys that the version has.
fn fit_in_a_put(version: &AttrList, keys: &[Key]) -> bool {
    keys.iter().filter(|key| has(version, key)).count() <= MAX_PAIRS
}

/// Returns whether the version has a number of this block as its value of the key.
fn uses_block(version: &AttrList, key: &Key, block: u32) -> bool {
    match value_of(version.as_slice(), key) {
        Some(Value::Number(number)) => {
            *number >= 0 && *number / i64::from(BLOCK_LEN) == i64::from(block)
        }
        _ => false,
    }
}

/// The tag of the version at this place: its own value of the key if no earlier version has that,
/// otherwise a number that no version has, and that is the tag of no other.
///
/// # Errors
/// - `Inseparable` if there is no such number.
/// - `NoMemory` if an allocation failed.
pub(crate) fn tag_of(
    alloc: Global,
    versions: &[AttrList],
    place: usize,
    key: &Key,
    value: &Value,
) -> Result<Value, WritingFault>
    requires { place ≤ length versions.now }
{
    if !is_given(&versions[..place], key, value) {
        return Ok(value.copy(alloc)?);
    }
    for block in 0..BLOCK_LEN {
        if !versions
            .iter()
            .any(|version| uses_block(version, key, block))
        {
            let number = block * BLOCK_LEN + (place % BLOCK_LEN as usize) as u32;
            return Ok(Value::Number(i64::from(number)));
        }
    }
    Err(Reason::Inseparable.into())
}
