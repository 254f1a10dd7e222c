//! Groups as they are shown.

ghost use Rattle.std.specs.Prelude.{◌≡◌, false, IfOk, Contains, length, map};
ghost use Rattle.rules.specs.Bodies.{initial_in, is_change_body};
ghost use Rattle.rules.specs.Lists.{sort_by};
ghost use Rattle.rules.specs.Groups.{groups_of};
ghost use Rattle.rules.specs.Versions.{by_id, shown_of};
ghost use Rattle.places.specs.steps.PlaceSet.{places};
ghost use Rattle.places.specs.steps.Changes.{at, is_conflict_of};
ghost use Rattle.shape.specs.steps.Kept.{id_at, version_at, AreNamedOf};

use crate::named_groups::NamedGroups;
use attributes::attributes_of;
use base_types::NoMemory;
use conflict::ObjectChanges;
use places::PlaceSet;
use rules::{AttrList, Body, Op, Shown, Version};
use std::alloc::Global;
use wire::SharedId;

/// What is shown of a group: that it is gone where it holds a drop, and else its attributes.
fn shown_of(
    alloc: Global,
    creation: &Op,
    changes: &ObjectChanges,
    group: &PlaceSet,
) -> Result<Shown, NoMemory>
    requires creation { is_change_body creation.now.body ≡ false }
    requires group { let all = places (length changes.now.ops)
        in Contains (groups_of (is_conflict_of changes.now.ops) all) group.now }
    ensures { let ops = map (at changes.now.ops) group.now
        in IfOk result (λ shown. shown ≡ shown_of (initial_in creation.now.body) ops) }
{
    if changes.has_drop_at(group) {
        return Ok(Shown::Gone);
    }
    let Body::New { attrs, .. } = &creation.body else {
        unreachable!()
    };
    let attrs = attributes_of(alloc, attrs, changes.ops(), group)?;
    Ok(Shown::Attrs(AttrList::from_vec(attrs)))
}

/// A group with this identifier as it is shown.
fn version_of(
    alloc: Global,
    creation: &Op,
    changes: &ObjectChanges,
    group: &PlaceSet,
    id: &SharedId,
) -> Result<Version, NoMemory>
    requires creation { is_change_body creation.now.body ≡ false }
    requires group { let all = places (length changes.now.ops)
        in Contains (groups_of (is_conflict_of changes.now.ops) all) group.now }
    requires id { id.now ≡ id_at changes.now.ops group.now }
    ensures { IfOk result (λ version. version ≡ version_at creation.now changes.now.ops group.now) }
{
    let id = id.to_id(alloc)?;
    let shown = shown_of(alloc, creation, changes, group)?;
    Ok(Version { id, shown })
}

/// Groups as they are shown, in the order of the groups.
fn listed_versions(
    alloc: Global,
    creation: &Op,
    changes: &ObjectChanges,
    named: &NamedGroups,
) -> Result<Vec<Version>, NoMemory>
    requires creation { is_change_body creation.now.body ≡ false }
    requires named { AreNamedOf changes.now.ops named.now }
    ensures { IfOk result (λ versions. versions.items
        ≡ map (version_at creation.now changes.now.ops) named.now.groups.groups) }
{
    let (groups, ids) = (named.groups(), named.ids());
    let mut versions = Vec::with_capacity(alloc, groups.count())?;
    for group in 0..groups.count() {
        versions.push(version_of(alloc, creation, changes, groups.members(group), &ids[group])?)?;
    }
    Ok(versions)
}

/// The groups of all changes as they are shown, in the order of their identifiers.
pub(crate) fn sorted_versions(
    alloc: Global,
    creation: &Op,
    changes: &ObjectChanges,
    named: &NamedGroups,
) -> Result<Vec<Version>, NoMemory>
    requires creation { is_change_body creation.now.body ≡ false }
    requires object { changes.now.object ≡ creation.now.name }
    requires named { AreNamedOf changes.now.ops named.now }
    ensures { IfOk result (λ versions. versions.items
        ≡ sort_by by_id (map (version_at creation.now changes.now.ops) named.now.groups.groups)) }
{
    // That the changes are some history's, and that the identifiers are in order, is part of what
    // stays true of them.
    let _ = changes.ops();
    let _ = named.ids();
    listed_versions(alloc, creation, changes, named)
}
