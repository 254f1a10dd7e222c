//! Unions of the rows of places.

ghost use Rattle.std.specs.Prelude.{◌≡◌, ◌<◌, ℕ, true, [], drop, length, All, IfOk, IfSome, OnOk};
ghost use Rattle.std.specs.List.{AllWithin};
ghost use Rattle.std.specs.List.Sorted.{IsNonDecreasingBy};
ghost use Rattle.places.specs.steps.PlaceSet.{has};
ghost use Rattle.conflict_rows.specs.steps.Rows.{with_row, with_rows};

use base_types::NoMemory;
use places::PlaceSet;
use std::alloc::Global;

/// The last of the first `len` places that is in the set.
pub(crate) fn last_place(members: &PlaceSet, len: u32) -> Option<u32>
    ensures { IfSome result (λ place. has members.now place ≡ true) }
{
    (0..len).rev().find(|place| members.has(*place))
}

/// The places from this one on. A binary search.
pub(crate) fn places_from(places: &[u32], lowest: u32) -> &[u32]
    requires { IsNonDecreasingBy (λ place. place) places.now }
    ensures { (start : ℕ) × (result.now ≡ drop start places.now)
        × AllWithin (λ place. place < lowest) places.now 0 start }
{
    let start = places.partition_point(|place| *place < lowest);
    &places[start..]
}

/// Adds the row of a place if the place is in the scope, and the place itself if its row has a
/// place in the scope.
fn add_row(
    members: &mut PlaceSet,
    scope: &PlaceSet,
    row: &PlaceSet,
    place: u32,
) -> Result<(), NoMemory>
    ensures { OnOk result (members.new ≡ with_row scope.now row.now place members.old) }
{
    if scope.has(place) {
        members.insert_all(row)?;
    }
    if row.intersects(scope) {
        members.insert(place)?;
    }
    Ok(())
}

/// What the rows at some places, one after another, add to the empty set.
pub(crate) fn union_of_rows(
    alloc: Global,
    rows: &[PlaceSet],
    places: &[u32],
    scope: &PlaceSet,
) -> Result<PlaceSet, NoMemory>
    requires { All (λ place. place < length rows.now) places.now }
    ensures { IfOk result (λ joined. joined ≡ with_rows scope.now rows.now [] places.now) }
{
    let mut joined = PlaceSet::empty(alloc);
    for place in places {
        add_row(&mut joined, scope, &rows[*place as usize], *place)?;
    }
    Ok(joined)
}
