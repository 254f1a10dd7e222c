//! The attributes of a version.
#![tactic(auto)]

ghost use Rattle.std.specs.Prelude.{◌≡◌, ◌<◌, ◌≤◌, [], true, length, map, All, IfOk, OnOk};
ghost use Rattle.std.specs.List.{insert};
ghost use Rattle.std.specs.List.Sorted.{IsSorted};
ghost use Rattle.base_types.specs.Names.{Name};
ghost use Rattle.rules.specs.Groups.{is_compatible};
ghost use Rattle.rules.specs.Conflicts.{conflict};
ghost use Rattle.rules.specs.Versions.{attributes, key_cmp};
ghost use Rattle.places.specs.steps.Changes.{at, AreChangesOn};
ghost use Rattle.attributes.specs.steps.Pairs.{given_backwards, with_new_attrs, with_new};

use base_types::{Key, NoMemory, Value};
use places::PlaceSet;
use rules::{Attrs, SharedOp};
use std::alloc::Global;

/// For how many attributes memory is taken at once. Most versions have fewer.
const MOST_AT_FIRST: usize = 16;

/// The attributes of a version, in order of key: the initial attributes of its object, and the
/// changes of its group, by their places in causal order. A key has the value of its last put, or
/// else its initial value.
///
/// Searches each key of the puts and of the initial attributes by halving among those found so far.
/// Copies only what it returns.
///
/// # Errors
///
/// `NoMemory` if an allocation failed.
pub fn attributes_of(
    alloc: Global,
    initial: &Attrs,
    ops: &[SharedOp],
    members: &PlaceSet,
) -> Result<Vec<(Key, Value)>, NoMemory>
    requires changes { (object : Name) × AreChangesOn object ops.now }
    requires within { All (λ place. place < length ops.now) members.now }
    requires compatible { is_compatible (conflict ops.now) (map (at ops.now) members.now) ≡ true }
    ensures { IfOk result (λ pairs.
        pairs.items ≡ attributes initial.now (map (at ops.now) members.now)) }
{
    members.rises();
    let mut pairs = last_given(alloc, ops, members)?;
    add_missing(alloc, &mut pairs, initial.pairs())?;
    Ok(pairs)
}

/// For each key that the changes at these places give, what the last one of them gives: so they are
/// gone over from the last to the first.
fn last_given(
    alloc: Global,
    ops: &[SharedOp],
    members: &PlaceSet,
) -> Result<Vec<(Key, Value)>, NoMemory>
    requires { All (λ place. place < length ops.now) members.now }
    ensures pairs { IfOk result (λ pairs.
        pairs.items ≡ with_new_attrs [] (given_backwards (map (at ops.now) members.now))) }
    ensures sorted { IfOk result (λ pairs. IsSorted key_cmp pairs.items) }
{
    let places = members.list(alloc)?;
    last_given_at(alloc, ops, &places)
}

/// For each key that the changes at these places give, what the last one of them gives.
fn last_given_at(
    alloc: Global,
    ops: &[SharedOp],
    places: &[u32],
) -> Result<Vec<(Key, Value)>, NoMemory>
    requires { All (λ place. place < length ops.now) places.now }
    ensures pairs { IfOk result (λ pairs.
        pairs.items ≡ with_new_attrs [] (given_backwards (map (at ops.now) places.now))) }
    ensures sorted { IfOk result (λ pairs. IsSorted key_cmp pairs.items) }
{
    let mut pairs = Vec::with_capacity(alloc, places.len().min(MOST_AT_FIRST))?;
    add_given(alloc, &mut pairs, ops, places)?;
    Ok(pairs)
}

/// Adds what the changes at these places give to keys that aren't there yet, from the last to the
/// first. All are in order of key.
fn add_given(
    alloc: Global,
    pairs: &mut Vec<(Key, Value)>,
    ops: &[SharedOp],
    places: &[u32],
) -> Result<(), NoMemory>
    requires within { All (λ place. place < length ops.now) places.now }
    requires sorted { IsSorted key_cmp pairs.old.items }
    ensures pairs { let given = given_backwards (map (at ops.now) places.now)
        in OnOk result (pairs.new.items ≡ with_new_attrs pairs.old.items given) }
    ensures sorted { OnOk result (IsSorted key_cmp pairs.new.items) }
{
    for index in (0..places.len()).rev() {
        let place = places[index] as usize;
        add_missing(alloc, pairs, ops[place].body.pairs())?;
    }
    Ok(())
}

/// Adds those pairs whose keys aren't there yet. All are in order of key.
fn add_missing(
    alloc: Global,
    pairs: &mut Vec<(Key, Value)>,
    others: &[(Key, Value)],
) -> Result<(), NoMemory>
    requires { IsSorted key_cmp pairs.old.items }
    ensures pairs { OnOk result (pairs.new.items ≡ with_new_attrs pairs.old.items others.now) }
    ensures sorted { OnOk result (IsSorted key_cmp pairs.new.items) }
{
    for other in others {
        add_new(alloc, pairs, &other.0, &other.1)?;
    }
    Ok(())
}

/// Adds a key with its value, if the key isn't there yet. All are in order of key.
fn add_new(
    alloc: Global,
    pairs: &mut Vec<(Key, Value)>,
    key: &Key,
    value: &Value,
) -> Result<(), NoMemory>
    requires { IsSorted key_cmp pairs.old.items }
    ensures pairs { OnOk result (pairs.new.items ≡ with_new (key.now, value.now) pairs.old.items) }
    ensures sorted { OnOk result (IsSorted key_cmp pairs.new.items) }
{
    if let Err(place) = pairs.binary_search_by(|pair| pair.0.cmp(key)) {
        insert_copy(alloc, pairs, place, key, value)?;
    }
    Ok(())
}

/// Inserts a copy of a key and of its value at a place.
fn insert_copy(
    alloc: Global,
    pairs: &mut Vec<(Key, Value)>,
    place: usize,
    key: &Key,
    value: &Value,
) -> Result<(), NoMemory>
    requires { place ≤ length pairs.old.items }
    ensures { OnOk result (pairs.new.items ≡ insert pairs.old.items place (key.now, value.now)) }
{
    let key = key.copy(alloc)?;
    let value = value.copy(alloc)?;
    pairs.insert(place, (key, value))?;
    Ok(())
}
