//! One more place. Each group takes the place in, or stays. What of a group that stays is
//! compatible with the place becomes a candidate for a new group.

ghost use Rattle.std.specs.Prelude.{◌≡◌, ◌-◌, ◌<◌, filter, map, IfOk, IfSome, OnOk, All};
ghost use Rattle.std.specs.List.{list_any};
ghost use Rattle.places.specs.steps.PlaceSet.{is_within, places, with_place};
ghost use Rattle.version_groups.specs.steps.Kept.{AreGroups, HaveGrown};
ghost use Rattle.version_groups.specs.steps.Steps.{group_after, candidate, incompatible_groups, is_none_of, sift, next_groups, with_candidate, IsLastWith};
ghost use Rattle.places.specs.steps.PlaceSet.{AreBelow};

use base_types::NoMemory;
use places::{PlaceSet, Relation};
use std::alloc::Global;
use std::collections::VecDeque;

/// The groups of all places of a relation, from those of all but its last place.
#[tactic(auto, using(crate::proofs::Exact::groups_of_more, crate::proofs::Grown::have_grown))]
pub(crate) fn groups_with_last<R: Relation>(
    alloc: Global,
    relation: &R,
    kept: &[PlaceSet],
) -> Result<Vec<PlaceSet>, NoMemory>
    requires some { 0 < R.size relation.now }
    requires groups { AreGroups (R.conflicts relation.now) (places (R.size relation.now - 1))
        kept.now }
    ensures groups { IfOk result (λ next.
        AreGroups (R.conflicts relation.now) (places (R.size relation.now)) next.items) }
    ensures grown { IfOk result (λ next.
        HaveGrown (R.size relation.now - 1) kept.now next.items) }
{
    let place = relation.len() - 1;
    step(alloc, kept, relation.earlier_conflicts(place), place)
}

/// The groups with one place more.
fn step(
    alloc: Global,
    kept: &[PlaceSet],
    conflicting: &PlaceSet,
    place: u32,
) -> Result<Vec<PlaceSet>, NoMemory>
    requires { All (AreBelow place) kept.now }
    ensures { IfOk result (λ next.
        next.items ≡ next_groups (is_none_of conflicting.now) place kept.now) }
{
    let mut next = grown_groups(alloc, kept, conflicting, place)?;
    if conflicting.lowest_place().is_none() {
        return Ok(next);
    }
    add_candidates(
        &mut next,
        needed_candidates(alloc, kept, conflicting, place)?,
    )?;
    Ok(next)
}

/// Candidates for what a step adds to the grown groups. Where each candidate lies in that of one
/// group, that one alone.
fn needed_candidates(
    alloc: Global,
    kept: &[PlaceSet],
    conflicting: &PlaceSet,
    place: u32,
) -> Result<VecDeque<PlaceSet>, NoMemory>
    requires { All (AreBelow place) kept.now }
    ensures { let is_compatible = is_none_of conflicting.now in IfOk result (λ candidates.
        sift (map (group_after is_compatible place) kept.now) candidates.items
        ≡ next_groups is_compatible place kept.now) }
{
    let sources = match last_with_all_free(alloc, kept, conflicting, place)? {
        Some(group) => &kept[group..group + 1],
        None => kept,
    };
    candidates(alloc, sources, conflicting, place)
}

/// The last of several groups that has all places without a conflict with the place. Each candidate
/// lies in that of this group. Where the author of a change knows all others, or none that
/// conflicts with it, there is such a group.
fn last_with_all_free(
    alloc: Global,
    groups: &[PlaceSet],
    conflicting: &PlaceSet,
    place: u32,
) -> Result<Option<usize>, NoMemory>
    ensures { let free = filter (is_none_of conflicting.now) (places place)
        in IfOk result (λ found. IfSome found (IsLastWith free groups.now)) }
{
    if groups.len() < 2 {
        return Ok(None);
    }
    let free = PlaceSet::first_places(alloc, place)?.without(alloc, conflicting)?;
    Ok(last_with(groups, &free))
}

/// The last group that has all of some places.
fn last_with(groups: &[PlaceSet], members: &PlaceSet) -> Option<usize>
    ensures { IfSome result (IsLastWith members.now groups.now) }
{
    let mut left = groups.len();
    while left > 0 {
        left -= 1;
        if members.is_subset(&groups[left]) {
            return Some(left);
        }
    }
    None
}

/// A group with the place.
fn with_place(alloc: Global, group: &PlaceSet, place: u32) -> Result<PlaceSet, NoMemory>
    ensures { IfOk result (λ members. members ≡ with_place place group.now) }
{
    let mut members = group.copy(alloc)?;
    members.insert(place)?;
    Ok(members)
}

/// What of a group has no conflict with the place, and the place.
#[tactic(auto, using(crate::proofs::Pieces::candidate_is))]
fn candidate_of(
    alloc: Global,
    group: &PlaceSet,
    conflicting: &PlaceSet,
    place: u32,
) -> Result<PlaceSet, NoMemory>
    requires { AreBelow place group.now }
    ensures { IfOk result (λ members.
        members ≡ candidate (is_none_of conflicting.now) place group.now) }
{
    let mut members = group.without(alloc, conflicting)?;
    members.insert(place)?;
    Ok(members)
}

/// A group, with the place where nothing in it conflicts with the place.
#[tactic(auto, using(crate::proofs::Pieces::group_with_place, crate::proofs::Pieces::group_without_place, crate::proofs::Pieces::none_of_all))]
fn group_after(
    alloc: Global,
    group: &PlaceSet,
    conflicting: &PlaceSet,
    place: u32,
) -> Result<PlaceSet, NoMemory>
    requires { AreBelow place group.now }
    ensures { IfOk result (λ members.
        members ≡ group_after (is_none_of conflicting.now) place group.now) }
{
    if group.intersects(conflicting) {
        return group.copy(alloc);
    }
    with_place(alloc, group, place)
}

/// Each group, with the place where nothing in it conflicts with the place.
fn grown_groups(
    alloc: Global,
    groups: &[PlaceSet],
    conflicting: &PlaceSet,
    place: u32,
) -> Result<Vec<PlaceSet>, NoMemory>
    requires { All (AreBelow place) groups.now }
    ensures { IfOk result (λ next.
        next.items ≡ map (group_after (is_none_of conflicting.now) place) groups.now) }
{
    let mut next = Vec::with_capacity(alloc, groups.len())?;
    for group in groups {
        next.push(group_after(alloc, group, conflicting, place)?)?;
    }
    Ok(next)
}

/// A candidate for each group in which something conflicts with the place.
fn candidates(
    alloc: Global,
    groups: &[PlaceSet],
    conflicting: &PlaceSet,
    place: u32,
) -> Result<VecDeque<PlaceSet>, NoMemory>
    requires { All (AreBelow place) groups.now }
    ensures { let is_compatible = is_none_of conflicting.now in IfOk result (λ candidates.
        candidates.items
        ≡ map (candidate is_compatible place) (incompatible_groups is_compatible groups.now)) }
{
    let mut candidates = VecDeque::new(alloc);
    for group in groups {
        if group.intersects(conflicting) {
            candidates.push_back(candidate_of(alloc, group, conflicting, place)?)?;
        }
    }
    Ok(candidates)
}

/// Appends each candidate that is part of no group and of no later candidate.
fn add_candidates(
    groups: &mut Vec<PlaceSet>,
    mut candidates: VecDeque<PlaceSet>,
) -> Result<(), NoMemory>
    ensures { OnOk result (groups.new.items ≡ sift groups.old.items candidates.items) }
{
    while let Some(candidate) = candidates.pop_front() {
        add_candidate(groups, candidate, &candidates)?;
    }
    Ok(())
}

/// Appends a candidate if it is part of no group and of no later candidate.
fn add_candidate(
    groups: &mut Vec<PlaceSet>,
    candidate: PlaceSet,
    later: &VecDeque<PlaceSet>,
) -> Result<(), NoMemory>
    ensures { OnOk result (groups.new.items
        ≡ with_candidate groups.old.items candidate later.now.items) }
{
    // Many candidates are the same, and the next one shows it at once.
    if !lies_in_later(&candidate, later) && !lies_in(&candidate, groups) {
        groups.push(candidate)?;
    }
    Ok(())
}

/// Is a candidate part of one of the groups?
fn lies_in(candidate: &PlaceSet, groups: &[PlaceSet]) -> bool
    ensures { result ≡ list_any (is_within candidate.now) groups.now }
{
    groups.iter().any(|group| candidate.is_subset(group))
}

/// Is a candidate part of one of the later candidates?
fn lies_in_later(candidate: &PlaceSet, later: &VecDeque<PlaceSet>) -> bool
    ensures { result ≡ list_any (is_within candidate.now) later.now.items }
{
    later.iter().any(|other| candidate.is_subset(other))
}
