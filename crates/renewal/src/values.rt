//! Which version of an object gives which value to a key.

use base_types::{Key, Value};
use rules::AttrList;

/// The value that these attributes give the key.
pub(crate) fn value_of<'a>(attrs: &'a [(Key, Value)], key: &Key) -> Option<&'a Value> {
    for attr in attrs {
        if attr.0 == *key {
            return Some(&attr.1);
        }
    }
    None
}

/// Returns whether the version has the key.
pub(crate) fn has(version: &AttrList, key: &Key) -> bool {
    value_of(version.as_slice(), key).is_some()
}

/// Returns whether the version gives the key this value.
fn gives(version: &AttrList, key: &Key, value: &Value) -> bool {
    match value_of(version.as_slice(), key) {
        Some(other) => *other == *value,
        None => false,
    }
}

/// Returns whether one of the versions gives the key this value.
pub(crate) fn is_given(versions: &[AttrList], key: &Key, value: &Value) -> bool {
    versions.iter().any(|version| gives(version, key, value))
}

/// Returns whether all versions have the key, with one value.
pub(crate) fn are_alike(versions: &[AttrList], key: &Key) -> bool {
    let Some(first) = versions.first() else {
        return true;
    };
    match value_of(first.as_slice(), key) {
        Some(value) => versions.iter().all(|version| gives(version, key, value)),
        None => false,
    }
}

/// Returns whether no two versions give the key the same value.
pub(crate) fn do_all_differ(versions: &[AttrList], key: &Key) -> bool {
    for place in 0..versions.len() {
        if let Some(value) = value_of(versions[place].as_slice(), key) {
            if is_given(&versions[..place], key, value) {
                return false;
            }
        }
    }
    true
}
