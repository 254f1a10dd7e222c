//! The identifiers of groups, and the group that an identifier names.
#![tactic(auto)]

ghost use Rattle.std.specs.Prelude.{◌≡◌, ◌<◌, [], map, filter, not, All, IfOk, OnOk};
ghost use Rattle.base_types.specs.Names.{name_cmp};
ghost use Rattle.rules.specs.Groups.{in_conflict_with, identifier, group_named};
ghost use Rattle.rules.specs.steps.NamedGroups.{is_named};
ghost use Rattle.rules.specs.Lists.{sort_by, HasNoRepeats};
ghost use Rattle.places.specs.steps.PlaceSet.{has, places, with_those};
ghost use Rattle.places.specs.steps.Relations.{places_in_conflict, IsRelation};
ghost use Rattle.version_ids.specs.steps.Scopes.{is_conflicting, with_earlier_conflicts, AreAmong};

use base_types::{NoMemory, OpName, VersionId};
use places::{PlaceSet, Relation};
use std::alloc::Global;

pub mod laws;

/// The identifier of a group: the names of its members that conflict with some place of the
/// relation, in increasing order. The memory of `scratch` serves all groups, whatever it holds.
///
/// # Errors
///
/// `NoMemory` if an allocation failed.
#[tactic(auto, using(places::proofs::Rising::among_places))]
pub fn identifier_of<R: Relation>(
    alloc: Global,
    relation: &R,
    group: &PlaceSet,
    scratch: &mut Vec<u32>,
) -> Result<VersionId, NoMemory>
    requires { All (λ place. place < R.size relation.now) group.now }
    ensures { let all = places (R.size relation.now) in IfOk result (λ id.
        id ≡ identifier (R.conflicts relation.now) (R.name_at relation.now) all group.now) }
{
    group.rises();
    id_of_conflicting(alloc, relation, relation.in_conflict(), group, scratch)
}

/// The group of the known places with this identifier, or `None` if none of their groups has it.
///
/// # Errors
///
/// `NoMemory` if an allocation failed.
#[tactic(auto, using(places::proofs::Rising::among_places))]
pub fn group_named<R: Relation>(
    alloc: Global,
    relation: &R,
    known: &PlaceSet,
    id: &VersionId,
) -> Result<Option<PlaceSet>, NoMemory>
    requires { All (λ place. place < R.size relation.now) known.now }
    ensures { IfOk result (λ group. group
        ≡ group_named (R.conflicts relation.now) (R.name_at relation.now) known.now id.now) }
{
    known.rises();
    let group = places_that_fit(alloc, relation, known, id)?;
    let found = identifier_among(alloc, relation, known, &group)?;
    if found == *id {
        Ok(Some(group))
    } else {
        Ok(None)
    }
}

/// The known places that are in conflict with none of those that an identifier names.
fn places_that_fit<R: Relation>(
    alloc: Global,
    relation: &R,
    known: &PlaceSet,
    id: &VersionId,
) -> Result<PlaceSet, NoMemory>
    requires { AreAmong (R.size relation.now) known.now }
    ensures { let named = filter (is_named (R.name_at relation.now) id.now) known.now
        in IfOk result (λ group. group
        ≡ filter (λ place. not (in_conflict_with (R.conflicts relation.now) named place))
        known.now) }
{
    let named = places_named(alloc, relation, known, id)?;
    compatible_places(alloc, relation, known, &named)
}

/// The identifier of a group among some of the places.
fn identifier_among<R: Relation>(
    alloc: Global,
    relation: &R,
    scope: &PlaceSet,
    group: &PlaceSet,
) -> Result<VersionId, NoMemory>
    requires scope { AreAmong (R.size relation.now) scope.now }
    requires group { AreAmong (R.size relation.now) group.now }
    ensures id { IfOk result (λ id. id
        ≡ identifier (R.conflicts relation.now) (R.name_at relation.now) scope.now group.now) }
    ensures relation { OnOk result
        (IsRelation (R.size relation.now) (R.name_at relation.now) (R.conflicts relation.now)) }
{
    // With the length of a relation comes what it keeps.
    let len = relation.len();
    let mut scratch = Vec::new(alloc);
    if scope.count() == len as usize {
        return id_of_conflicting(alloc, relation, relation.in_conflict(), group, &mut scratch);
    }
    let conflicting = conflicting_among(alloc, relation, scope, group)?;
    id_of_conflicting(alloc, relation, &conflicting, group, &mut scratch)
}

/// The rising list of the names of those members of a group that are among some places.
#[tactic(auto, using(crate::proofs::Found::names_once))]
fn id_of_conflicting<R: Relation>(
    alloc: Global,
    relation: &R,
    conflicting: &PlaceSet,
    group: &PlaceSet,
    scratch: &mut Vec<u32>,
) -> Result<VersionId, NoMemory>
    requires { AreAmong (R.size relation.now) group.now }
    ensures { let named = filter (has conflicting.now) group.now
        in IfOk result (λ id. id ≡ sort_by name_cmp (map (R.name_at relation.now) named)) }
{
    // With the length of a relation comes what it keeps.
    let _ = relation.len();
    let names = names_in_conflict(alloc, relation, conflicting, group, scratch)?;
    Ok(id_of_names(names))
}

/// The names of those members of a group that are among some places.
fn names_in_conflict<R: Relation>(
    alloc: Global,
    relation: &R,
    conflicting: &PlaceSet,
    group: &PlaceSet,
    scratch: &mut Vec<u32>,
) -> Result<Vec<OpName>, NoMemory>
    requires { AreAmong (R.size relation.now) group.now }
    ensures { let named = filter (has conflicting.now) group.now
        in IfOk result (λ names. names.items ≡ map (R.name_at relation.now) named) }
{
    group.list_common(conflicting, scratch)?;
    names_at(alloc, relation, scratch)
}

/// The names at some places.
///
/// # Errors
///
/// `NoMemory` if an allocation failed.
pub fn names_at<R: Relation>(
    alloc: Global,
    relation: &R,
    places: &[u32],
) -> Result<Vec<OpName>, NoMemory>
    requires { All (λ place. place < R.size relation.now) places.now }
    ensures { IfOk result (λ names. names.items ≡ map (R.name_at relation.now) places.now) }
{
    let mut names = Vec::with_capacity(alloc, places.len())?;
    for place in places {
        names.push(relation.name(*place))?;
    }
    Ok(names)
}

/// The identifier of these names, of which no two are the same.
fn id_of_names(mut names: Vec<OpName>) -> VersionId
    requires { HasNoRepeats names.items }
    ensures { result ≡ sort_by name_cmp names.items }
{
    names.sort_unstable();
    VersionId::from_vec(names).unwrap()
}

/// The known places that an identifier names.
fn places_named<R: Relation>(
    alloc: Global,
    relation: &R,
    known: &PlaceSet,
    id: &VersionId,
) -> Result<PlaceSet, NoMemory>
    requires { AreAmong (R.size relation.now) known.now }
    ensures { IfOk result (λ named.
        named ≡ filter (is_named (R.name_at relation.now) id.now) known.now) }
{
    let mut named = PlaceSet::empty(alloc);
    if id.names().is_empty() {
        return Ok(named);
    }
    let places = &known.list(alloc)?;
    for place in places {
        let is_named = is_name_in(id, relation.name(*place));
        named.insert_if(*place, is_named)?;
    }
    Ok(named)
}

/// Does an identifier have this name? A binary search.
fn is_name_in(id: &VersionId, name: OpName) -> bool
    ensures { result ≡ is_named (λ n. n) id.now name }
{
    id.names().binary_search(&name).is_ok()
}

/// The known places that are in conflict with none of those named.
fn compatible_places<R: Relation>(
    alloc: Global,
    relation: &R,
    known: &PlaceSet,
    named: &PlaceSet,
) -> Result<PlaceSet, NoMemory>
    requires known { AreAmong (R.size relation.now) known.now }
    requires named { All (λ place. place < R.size relation.now) named.now }
    ensures { IfOk result (λ group. group
        ≡ filter (λ place. not (in_conflict_with (R.conflicts relation.now) named.now place))
        known.now) }
{
    let conflicting = conflicting_among(alloc, relation, named, known)?;
    known.without(alloc, &conflicting)
}

/// Those of the given places that conflict with some place.
fn list_in_conflict<R: Relation>(
    alloc: Global,
    relation: &R,
    places: &PlaceSet,
) -> Result<Vec<u32>, NoMemory>
    ensures { let all = places_in_conflict (R.conflicts relation.now) (R.size relation.now)
        in IfOk result (λ list. list.items ≡ filter (has all) places.now) }
{
    let mut list = Vec::new(alloc);
    places.list_common(relation.in_conflict(), &mut list)?;
    Ok(list)
}

/// The lower places that conflict with one of these.
fn earlier_conflicts<R: Relation>(
    alloc: Global,
    relation: &R,
    places: &[u32],
) -> Result<PlaceSet, NoMemory>
    requires { All (λ place. place < R.size relation.now) places.now }
    ensures { IfOk result (λ all.
        all ≡ with_earlier_conflicts (R.conflicts relation.now) [] places.now) }
{
    let mut all = PlaceSet::empty(alloc);
    for place in places {
        all.insert_all(relation.earlier_conflicts(*place))?;
    }
    Ok(all)
}

/// The lower places that conflict with one of the scope.
fn earlier_conflicts_of<R: Relation>(
    alloc: Global,
    relation: &R,
    scope: &PlaceSet,
) -> Result<PlaceSet, NoMemory>
    requires { All (λ place. place < R.size relation.now) scope.now }
    ensures { let all = places_in_conflict (R.conflicts relation.now) (R.size relation.now)
        in IfOk result (λ earlier. earlier
        ≡ with_earlier_conflicts (R.conflicts relation.now) [] (filter (has all) scope.now)) }
{
    let others = list_in_conflict(alloc, relation, scope)?;
    earlier_conflicts(alloc, relation, &others)
}

/// Those of the listed places that conflict with one of the scope. `earlier` has the lower places
/// in conflict with the scope.
fn those_conflicting<R: Relation>(
    alloc: Global,
    relation: &R,
    scope: &PlaceSet,
    earlier: &PlaceSet,
    places: &[u32],
) -> Result<PlaceSet, NoMemory>
    requires { All (λ place. place < R.size relation.now) places.now }
    ensures { IfOk result (λ conflicting. conflicting ≡ with_those
        (is_conflicting (R.conflicts relation.now) scope.now earlier.now) [] places.now) }
{
    let mut conflicting = PlaceSet::empty(alloc);
    for place in places {
        let row = relation.earlier_conflicts(*place);
        conflicting.insert_if(*place, earlier.has(*place) || row.intersects(scope))?;
    }
    Ok(conflicting)
}

/// Those places that conflict with one of the scope. For each of both that conflicts with some
/// place, it looks at the row of that, 64 places at a time.
fn conflicting_among<R: Relation>(
    alloc: Global,
    relation: &R,
    scope: &PlaceSet,
    among: &PlaceSet,
) -> Result<PlaceSet, NoMemory>
    requires scope { All (λ place. place < R.size relation.now) scope.now }
    requires among { AreAmong (R.size relation.now) among.now }
    ensures { IfOk result (λ conflicting. conflicting
        ≡ filter (in_conflict_with (R.conflicts relation.now) scope.now) among.now) }
{
    // With the length of a relation comes what it keeps.
    let _ = relation.len();
    let earlier = earlier_conflicts_of(alloc, relation, scope)?;
    let places = list_in_conflict(alloc, relation, among)?;
    those_conflicting(alloc, relation, scope, &earlier, &places)
}
