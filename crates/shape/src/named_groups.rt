//! The groups of an object's changes with their identifiers. Both are kept between calls, since a
//! change leaves most identifiers as they are.

ghost use Rattle.std.specs.Prelude.{◌≡◌, ◌+◌, ◌<◌, ◌≤◌, ◌++◌, ◌∷◌, List, [], Err, true, All, IfOk, IfSome, OnOk, filter, length, map, not, slice_index_or};
ghost use Rattle.std.specs.List.Sorted.{IsPermutation, IsSorted, IsSortedWithin};
ghost use Rattle.base_types.specs.Names.{Name};
ghost use Rattle.base_types.specs.VersionIds.{id_cmp, names_rise};
ghost use Rattle.rules.specs.declared.history.Op.{Op};
ghost use Rattle.rules.specs.Groups.{group_named};
ghost use Rattle.rules.specs.Lists.{sort_by};
ghost use Rattle.places.specs.steps.PlaceSet.{has, places};
ghost use Rattle.places.specs.steps.Lookups.{IsPlaceOf};
ghost use Rattle.places.specs.steps.Changes.{at, conflicting_places, is_conflict_of};
ghost use Rattle.version_groups.specs.declared.fault.AddFault.TheVariants as AddFault;
ghost use Rattle.version_groups.specs.steps.Kept.{count_of_groups, HaveGrown};
ghost use Rattle.shape.specs.steps.GroupsAfter.{groups_after};
ghost use Rattle.shape.specs.steps.Kept.{id_at, is_less, named, AreGroupsOf, AreNamedOf, GoesOn, Reordered};

use crate::planned::GroupsAfter;
use base_types::{NoMemory, VersionId};
use conflict::{ObjectChanges, WithAddition};
use places::{PlaceSet, Relation};
use std::alloc::Global;
use std::marker::Model;
use version_groups::{AddFault, Groups};
use version_ids::{identifier_of, names_at};
use wire::{SharedId, SharedIds};

/// The groups of all changes of an object, each with its identifier, in order of identifier.
#[derive(Drop)]
pub(crate) struct NamedGroups {
    groups: Groups,
    ids: SharedIds,
}

impl Model for NamedGroups {
    ghost use Rattle.shape.specs.steps.Kept.{Named};

    ghost Value = { Named };

    ghost view = { λ named. record { groups = named.groups; ids = named.ids.items } };

    ghost use Rattle.std.specs.List.Sorted.{IsSorted};
    ghost use Rattle.base_types.specs.VersionIds.{id_cmp};

    ghost invariant = { λ named. IsSorted id_cmp named.ids.items };
}

/// The identifier of a group, in memory of its own. The memory of `scratch` serves all groups.
fn new_id(
    alloc: Global,
    changes: &WithAddition<'_>,
    group: &PlaceSet,
    scratch: &mut Vec<u32>,
) -> Result<SharedId, NoMemory>
    requires { All (λ place. place < length changes.now) group.now }
    ensures { IfOk result (λ id. id ≡ id_at changes.now group.now) }
{
    let id = identifier_of(alloc, changes, group, scratch)?;
    SharedId::with_text(alloc, id)
}

/// An identifier with the names at these places more, or `None` if it has one of them.
fn with_names(
    alloc: Global,
    changes: &WithAddition<'_>,
    id: &SharedId,
    added: &[u32],
) -> Result<Option<SharedId>, NoMemory>
    requires { All (λ place. place < length changes.now) added.now }
    ensures names { IfOk result (λ found. IfSome found
        (IsPermutation (map (λ place. (at changes.now place).name) added.now ++ id.now))) }
    ensures rise { IfOk result (λ found. IfSome found (λ id. names_rise id ≡ true)) }
{
    let names = names_at(alloc, changes, added)?;
    id.with_names(alloc, &names)
}

/// The identifier of a group that had another one before: that with the names at the added places
/// more. The memory of `added` then serves other groups.
fn grown_id(
    alloc: Global,
    changes: &WithAddition<'_>,
    id: &SharedId,
    members: &PlaceSet,
    added: &mut Vec<u32>,
) -> Result<SharedId, NoMemory>
    requires members { All (λ place. place < length changes.now) members.now }
    requires added { All (λ place. place < length changes.now) added.old.items }
    requires stays { added.old.items ≡ [] → id.now ≡ id_at changes.now members.now }
    requires grows { (grown : List Name) → names_rise grown ≡ true → IsPermutation
        (map (λ place. (at changes.now place).name) added.old.items ++ id.now) grown
        → grown ≡ id_at changes.now members.now }
    ensures { IfOk result (λ id. id ≡ id_at changes.now members.now) }
{
    if added.is_empty() {
        return id.share();
    }
    match with_names(alloc, changes, id, added)? {
        Some(id) => Ok(id),
        None => new_id(alloc, changes, members, added),
    }
}

/// The places that come newly into conflict by a change more. Most changes bring none.
fn newly_conflicting(
    alloc: Global,
    before: &ObjectChanges,
    after: &WithAddition<'_>,
) -> Result<PlaceSet, NoMemory>
    ensures { IfOk result (λ newly. newly ≡ filter
        (λ place. not (has (conflicting_places before.now.ops) place))
        (conflicting_places after.now)) }
{
    let conflicting = after.in_conflict();
    if conflicting.is_subset(before.in_conflict()) {
        return Ok(PlaceSet::empty(alloc));
    }
    conflicting.without(alloc, before.in_conflict())
}

/// Is the first identifier less than the second?
fn is_less(first: &SharedId, second: &SharedId) -> bool
    ensures { result ≡ is_less first.now second.now }
{
    first.names().cmp(second.names()).is_lt()
}

/// Moves a group with its identifier before those with greater identifiers. These stand right
/// before it, since the groups before it are in order.
fn sink(groups: &mut Groups, ids: &mut SharedIds, group: usize)
    requires group { group < length ids.old.items }
    requires each { length ids.old.items ≡ length groups.old.groups }
    requires sorted { IsSortedWithin is_less ids.old.items 0 group }
    ensures order { Reordered (named groups.old ids.old.items) (named groups.new ids.new.items) }
    ensures sorted { IsSortedWithin is_less ids.new.items 0 (group + 1) }
{
    let mut at = group;
    while at > 0 && is_less(&ids[at], &ids[at - 1]) {
        ids.as_mut_slice().swap(at - 1, at);
        groups.swap(at - 1, at);
        at -= 1;
    }
}

/// Puts groups with their identifiers in order of identifier. A change leaves most of them where
/// they are, at a comparison each.
fn sort(groups: &mut Groups, ids: &mut SharedIds)
    requires { length ids.old.items ≡ length groups.old.groups }
    ensures order { Reordered (named groups.old ids.old.items) (named groups.new ids.new.items) }
    ensures sorted { IsSorted id_cmp ids.new.items }
{
    for group in 1..ids.len() {
        sink(groups, ids, group);
    }
}

/// At which place an identifier stands, if it is one of these.
fn find(ids: &[SharedId], id: &VersionId) -> Option<usize>
    ensures { IsPlaceOf (λ i. slice_index_or ids.now i []) (length ids.now) id.now result }
{
    for place in 0..ids.len() {
        if ids[place].names() == id.names() {
            return Some(place);
        }
    }
    None
}

/// The identifier of no names, alone. Takes no memory.
pub(crate) fn one_unnamed(alloc: Global) -> SharedIds
    ensures { result.items ≡ [] ∷ [] }
{
    SharedIds::from_buf(alloc, [SharedId::default()])
}

impl NamedGroups {
    /// The group of no changes.
    pub(crate) fn new(alloc: Global) -> Result<NamedGroups, NoMemory>
        ensures { IfOk result (AreNamedOf []) }
    {
        let groups = Groups::new(alloc)?;
        let mut ids = SharedIds::new(alloc);
        ids.push(SharedId::default())?;
        Ok(NamedGroups { groups, ids })
    }

    /// The groups.
    pub(crate) fn groups(&self) -> &Groups
        ensures { result.now ≡ self.now.groups }
    {
        &self.groups
    }

    /// The identifiers of the groups, in order.
    pub(crate) fn ids(&self) -> &[SharedId]
        ensures ids { result.now ≡ self.now.ids }
        ensures sorted { IsSorted id_cmp self.now.ids }
    {
        &self.ids
    }

    /// Replaces the groups by those with a change more, which are of so many places. Without an
    /// allocation.
    pub(crate) fn replace(&mut self, ops: u32, after: GroupsAfter)
        requires some { 0 < length self.old.groups.groups }
        requires ops { (groups_after after).groups.ops ≡ ops }
        ensures { self.new ≡ groups_after after }
    {
        match after {
            GroupsAfter::One(group) => {
                self.groups.replace_by_one(ops, group);
                self.ids = one_unnamed(*self.ids.allocator());
            }
            GroupsAfter::Several(several) => *self = Box::into_inner(several).into_groups(),
        }
    }

    /// The groups with one more change, in memory of their own. `TooMany` if there would be more
    /// than the limit, and `NoMemory`.
    pub(crate) fn plan(
        &self,
        alloc: Global,
        before: &ObjectChanges,
        after: &WithAddition<'_>,
        limit: usize,
    ) -> Result<NamedGroups, AddFault>
        requires before { AreNamedOf before.now.ops self.now }
        requires after { GoesOn before.now.ops after.now }
        requires some { 0 < limit }
        ensures named { IfOk result (AreNamedOf after.now) }
        // How many there are.
        ensures within { OnOk result
            (count_of_groups (is_conflict_of after.now) (length after.now) ≤ limit) }
        ensures too_many { result ≡ Err AddFault.TooMany
            → limit < count_of_groups (is_conflict_of after.now) (length after.now) }
    {
        let mut groups = self.groups.plan(alloc, after, limit)?;
        let ids = self.ordered_ids(alloc, before, after, &mut groups)?;
        Ok(NamedGroups { groups, ids })
    }

    /// The identifiers of the groups with one more change, which it puts in order of identifier.
    fn ordered_ids(
        &self,
        alloc: Global,
        before: &ObjectChanges,
        after: &WithAddition<'_>,
        groups: &mut Groups,
    ) -> Result<SharedIds, NoMemory>
        requires before { AreNamedOf before.now.ops self.now }
        requires after { GoesOn before.now.ops after.now }
        // The groups are those of the changes after it, each grown from one before:
        requires ops { groups.old.ops ≡ length after.now }
        requires groups { AreGroupsOf after.now groups.old.groups }
        requires grown { let kept = self.now.groups
            in HaveGrown kept.ops kept.groups groups.old.groups }
        // The identifiers:
        ensures named { IfOk result (λ ids. AreNamedOf after.now (named groups.new ids.items)) }
        ensures sorted { IfOk result (λ ids. IsSorted id_cmp ids.items) }
    {
        let newly = newly_conflicting(alloc, before, after)?;
        if newly.lowest_place().is_none() && groups.count() == self.ids.len() {
            // Each group has its identifier of before.
            return self.shared_ids(alloc);
        }
        let mut ids = self.ids_after(alloc, before, after, groups, &newly)?;
        sort(groups, &mut ids);
        Ok(ids)
    }

    /// The identifiers of the groups with one more change. That of a group of before has the names
    /// more of its places that come newly into conflict, which the caller gives.
    fn ids_after(
        &self,
        alloc: Global,
        before: &ObjectChanges,
        after: &WithAddition<'_>,
        groups: &Groups,
        newly: &PlaceSet,
    ) -> Result<SharedIds, NoMemory>
        requires before { AreNamedOf before.now.ops self.now }
        requires after { GoesOn before.now.ops after.now }
        requires groups { AreGroupsOf after.now groups.now.groups }
        requires grown { let kept = self.now.groups
            in HaveGrown kept.ops kept.groups groups.now.groups }
        requires newly { newly.now ≡ filter
            (λ place. not (has (conflicting_places before.now.ops) place))
            (conflicting_places after.now) }
        ensures { IfOk result (λ ids. ids.items ≡ map (id_at after.now) groups.now.groups) }
    {
        let mut ids = SharedIds::with_capacity(alloc, groups.count())?;
        self.push_ids_after(alloc, after, groups, newly, &mut ids)?;
        Ok(ids)
    }

    /// Adds the identifiers of the groups with one more change to none.
    fn push_ids_after(
        &self,
        alloc: Global,
        after: &WithAddition<'_>,
        groups: &Groups,
        newly: &PlaceSet,
        ids: &mut SharedIds,
    ) -> Result<(), NoMemory>
        requires before { (k : List Op) × AreNamedOf k self.now × GoesOn k after.now
            × (newly.now ≡ filter (λ place. not (has (conflicting_places k) place))
            (conflicting_places after.now)) }
        requires groups { AreGroupsOf after.now groups.now.groups }
        requires grown { let kept = self.now.groups
            in HaveGrown kept.ops kept.groups groups.now.groups }
        requires none { ids.old.items ≡ [] }
        ensures { OnOk result (ids.new.items ≡ map (id_at after.now) groups.now.groups) }
    {
        // With the length of a relation comes what it keeps.
        let _ = after.len();
        let mut added = Vec::new(alloc);
        for group in 0..groups.count() {
            let members = groups.members(group);
            members.rises();
            members.list_common(newly, &mut added)?;
            let id = match self.ids.get(group) {
                Some(id) => grown_id(alloc, after, id, members, &mut added)?,
                None => new_id(alloc, after, members, &mut added)?,
            };
            ids.push(id)?;
        }
        Ok(())
    }

    /// The group with an identifier, in memory of its own, or `None` if no group has it. Compares
    /// the identifier with each that is kept.
    pub(crate) fn group_named(
        &self,
        alloc: Global,
        changes: &ObjectChanges,
        id: &VersionId,
    ) -> Result<Option<PlaceSet>, NoMemory>
        requires { AreNamedOf changes.now.ops self.now }
        ensures { let ops = changes.now.ops in IfOk result (λ group. group
            ≡ group_named (is_conflict_of ops) (λ i. (at ops i).name) (places (length ops)) id.now) }
    {
        // With the length of a relation comes what it keeps.
        let _ = changes.len();
        let Some(group) = find(&self.ids, id) else {
            return Ok(None);
        };
        Ok(Some(self.groups.members(group).copy(alloc)?))
    }

    /// The identifiers in order, each with one more owner.
    pub(crate) fn sorted_ids(
        &self,
        alloc: Global,
        changes: &WithAddition<'_>,
    ) -> Result<SharedIds, NoMemory>
        requires { AreNamedOf changes.now self.now }
        ensures { IfOk result (λ ids. ids.items ≡ sort_by id_cmp self.now.ids) }
    {
        // With the length of a relation comes what it keeps.
        let _ = changes.len();
        self.shared_ids(alloc)
    }

    /// The identifiers in the order of the groups, each with one more owner.
    fn shared_ids(&self, alloc: Global) -> Result<SharedIds, NoMemory>
        ensures ids { IfOk result (λ ids. ids.items ≡ self.now.ids) }
        ensures sorted { IsSorted id_cmp self.now.ids }
    {
        let known = self.ids();
        let mut ids = SharedIds::with_capacity(alloc, known.len())?;
        for id in known {
            ids.push_reserved(id.share()?);
        }
        Ok(ids)
    }
}
