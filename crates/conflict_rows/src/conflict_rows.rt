//! The changes of one object with their bases and their conflicts.

ghost use Rattle.std.specs.Prelude.{◌≡◌, ℕ, List, true, ◌<◌, ◌^◌, [], ◌∷◌, ◌++◌, length, filter, nat_lt, not, if◌then◌else◌, vec_capacity, vec_len, All, IfOk, IfSome, OnOk};
ghost use Rattle.std.specs.List.{list_any};
ghost use Rattle.places.specs.steps.PlaceSet.{has, is_within, places, with_place, with_those};
ghost use Rattle.conflict_rows.specs.steps.Rows.{at_odds_at, conflicts_below, direct_places, is_in_row, places_unknown, with_conflicts};
ghost use Rattle.places.specs.steps.Changes.{at, base_places, conflicting_places, is_conflict_of, new_conflicts, AreChangesOn, IsAddition};

use crate::joins::{last_place, places_from, union_of_rows};
use crate::{Addition, WithAddition};
use base_types::{NoMemory, OpName};
use places::{PlaceSet, Relation};
use rules::{Op, SharedOp};
use std::alloc::Global;
use std::marker::Model;

/// The changes of one object in order of arrival, by their places, which count from 0. Each has the
/// places of its base. Its conflicts with earlier changes are computed once, before it is added.
#[derive(Drop)]
pub struct ConflictRows {
    object: OpName,
    ops: Vec<SharedOp>,
    bases: Vec<PlaceSet>,
    /// For each change the places of the earlier ones that it is in conflict with.
    rows: Vec<PlaceSet>,
    /// The places of the changes that are in conflict with an earlier one, in rising order.
    late: Vec<u32>,
    /// The places of the changes that are in conflict with some change.
    conflicting: PlaceSet,
}

impl Model for ConflictRows {
    ghost use Rattle.std.specs.Prelude.{◌-◌, min, vec_capacity, vec_len};
    ghost use Rattle.places.specs.steps.Changes.{Changes};
    ghost use Rattle.conflict_rows.specs.steps.Stored.{AreStored};

    ghost Value = { Changes };

    ghost view = { λ changes. record {
      object = changes.object;
      ops = changes.ops.items;
      spare = min (vec_capacity changes.ops - vec_len changes.ops)
          (min (vec_capacity changes.bases - vec_len changes.bases)
          (min (vec_capacity changes.rows - vec_len changes.rows)
          (vec_capacity changes.late - vec_len changes.late)));
    } };

    ghost invariant = { λ changes. AreStored changes.object changes.ops.items
        changes.bases.items changes.rows.items changes.late.items changes.conflicting };
}

/// Appends a place if its change conflicts with earlier ones. No allocation.
fn push_if_late(late: &mut Vec<u32>, place: u32, conflicts: usize)
    requires { vec_len late.old < vec_capacity late.old }
    ensures { late.new.items
        ≡ (if nat_lt 0 conflicts then late.old.items ++ place ∷ [] else late.old.items) }
{
    if conflicts > 0 {
        late.push_reserved(place);
    }
}

impl ConflictRows {
    /// No changes of an object, without an allocation.
    pub fn new(alloc: Global, object: OpName) -> ConflictRows
        ensures object { result.object ≡ object }
        ensures none { result.ops ≡ [] }
    {
        ConflictRows {
            object,
            ops: Vec::new(alloc),
            bases: Vec::new(alloc),
            rows: Vec::new(alloc),
            late: Vec::new(alloc),
            conflicting: PlaceSet::empty(alloc),
        }
    }

    /// Computes what is needed to add a change of the object, and takes the memory for it. So
    /// `commit` can't fail. The changes stay as they are.
    ///
    /// The change precedes none of these in causal order, and knows no other changes of the object.
    /// The caller gives the places of its base. It also gives candidates: of the changes that it
    /// doesn't know at least those at odds with it.
    ///
    /// Looks at each change that conflicts with an earlier one. Where the last change of the base
    /// is based on the others, it begins there. It also looks at all changes from the first
    /// candidate on that conflicts with the change and not with its base. Everything else takes 64
    /// places at a time.
    ///
    /// # Errors
    ///
    /// `NoMemory` if an allocation failed.
    pub fn plan(
        &mut self,
        alloc: Global,
        op: SharedOp,
        base: PlaceSet,
        candidates: &PlaceSet,
    ) -> Result<Addition, NoMemory>
        // What is known of the change.
        requires changes { AreChangesOn self.old.object (self.old.ops ++ op ∷ []) }
        requires base { base ≡ base_places self.old.ops op }
        requires within { All (λ place. place < length self.old.ops) candidates.now }
        requires at_odds { filter (at_odds_at self.old.ops op.body) candidates.now
            ≡ filter (at_odds_at self.old.ops op.body) (places_unknown self.old.ops op) }
        // What is planned.
        ensures op { IfOk result (λ addition. addition.op ≡ op) }
        ensures ready { IfOk result (λ addition.
            IsAddition self.new.object self.new.ops addition) }
        ensures spare { OnOk result (0 < self.new.spare) }
        // The changes stay as they are.
        ensures object { self.new.object ≡ self.old.object }
        ensures ops { self.new.ops ≡ self.old.ops }
    {
        let (row, conflicting) = self.planned_rows(alloc, &op, &base, candidates)?;
        Ok(Addition::new(op, base, row, conflicting))
    }

    /// Adds a change that was planned for these, without an allocation.
    pub fn commit(&mut self, addition: Addition)
        requires ready { IsAddition self.old.object self.old.ops addition }
        requires spare { 0 < self.old.spare }
        ensures object { self.new.object ≡ self.old.object }
        ensures ops { self.new.ops ≡ self.old.ops ++ addition.op ∷ [] }
    {
        let (op, base, row, conflicting) = addition.into_parts();
        // That the name is in range is part of what stays true of the changes: so there are few of
        // them.
        let name = op.name;
        let _ = name.site();
        let _ = name.seq();
        let place = self.ops.len() as u32;
        let conflicts = row.count();
        self.ops.push_reserved(op);
        self.bases.push_reserved(base);
        self.rows.push_reserved(row);
        push_if_late(&mut self.late, place, conflicts);
        self.conflicting = conflicting;
    }

    /// These changes and one that was planned for them, as a relation.
    pub fn with<'a>(&'a self, addition: &'a Addition) -> WithAddition<'a>
        requires { IsAddition self.now.object self.now.ops addition.now }
        ensures { result ≡ self.now.ops ++ addition.now.op ∷ [] }
    {
        // What stays true of the changes, and the range of the name: there are few, also with one
        // more.
        let _ = &self.ops;
        let name = addition.op().name;
        let _ = name.site();
        let _ = name.seq();
        WithAddition::new(self, addition)
    }

    /// The places of the base of the change at a place.
    pub fn base(&self, i: u32) -> &PlaceSet
        requires { i < length self.now.ops }
        ensures { result.now ≡ base_places self.now.ops (at self.now.ops i) }
    {
        &self.bases[i as usize]
    }

    /// The changes in the order in which they were added. They are all changes of the object in
    /// some history, in causal order, and each has a base.
    pub fn ops(&self) -> &[SharedOp]
        ensures changes { result.now ≡ self.now.ops }
        ensures object { AreChangesOn self.now.object self.now.ops }
        ensures few { length self.now.ops < 2 ^ 32 }
    {
        self.ops.as_slice()
    }

    /// Takes the memory for one more change. The changes stay as they are.
    fn reserve(&mut self) -> Result<(), NoMemory>
        ensures spare { OnOk result (0 < self.new.spare) }
        ensures object { self.new.object ≡ self.old.object }
        ensures ops { self.new.ops ≡ self.old.ops }
    {
        self.ops.reserve(1)?;
        self.bases.reserve(1)?;
        self.rows.reserve(1)?;
        self.late.reserve(1)?;
        Ok(())
    }

    /// The places of the changes that conflict with a change to be added, and of all that conflict
    /// with some change then. Takes the memory for the change. The changes stay as they are.
    fn planned_rows(
        &mut self,
        alloc: Global,
        op: &Op,
        based: &PlaceSet,
        candidates: &PlaceSet,
    ) -> Result<(PlaceSet, PlaceSet), NoMemory>
        requires changes { AreChangesOn self.old.object (self.old.ops ++ op.now ∷ []) }
        requires base { based.now ≡ base_places self.old.ops op.now }
        requires within { All (λ place. place < length self.old.ops) candidates.now }
        requires at_odds { filter (at_odds_at self.old.ops op.now.body) candidates.now
            ≡ filter (at_odds_at self.old.ops op.now.body) (places_unknown self.old.ops op.now) }
        // What is planned:
        ensures row { IfOk result (λ planned. planned.0 ≡ new_conflicts self.old.ops op.now) }
        ensures all { let place = length self.old.ops in IfOk result (λ planned. planned.1
            ≡ with_conflicts planned.0 place (conflicting_places self.old.ops)) }
        // There is memory for it, and nothing else changes:
        ensures spare { OnOk result (0 < self.new.spare) }
        ensures object { self.new.object ≡ self.old.object }
        ensures ops { self.new.ops ≡ self.old.ops }
    {
        let row = self.row(alloc, op, based, candidates)?;
        let conflicting = self.reserved_with(alloc, &row)?;
        Ok((row, conflicting))
    }

    /// The places of all changes that conflict with some change, once one is added that conflicts
    /// with those of a row. Takes the memory for that one. The changes stay as they are.
    fn reserved_with(&mut self, alloc: Global, row: &PlaceSet) -> Result<PlaceSet, NoMemory>
        ensures all { let place = length self.old.ops in IfOk result (λ all. all
            ≡ with_conflicts row.now place (conflicting_places self.old.ops)) }
        ensures spare { OnOk result (0 < self.new.spare) }
        ensures object { self.new.object ≡ self.old.object }
        ensures ops { self.new.ops ≡ self.old.ops }
    {
        let conflicting = self.conflicting_with(alloc, row)?;
        self.reserve()?;
        Ok(conflicting)
    }

    /// The change at a place.
    fn change_at(&self, place: u32) -> &Op
        requires { place < length self.now.ops }
        ensures { result.now ≡ at self.now.ops place }
    {
        &self.ops[place as usize]
    }

    /// The places of the base of the change at a place, and that place.
    fn base_with_itself(&self, alloc: Global, place: u32) -> Result<PlaceSet, NoMemory>
        requires { place < length self.now.ops }
        ensures { IfOk result (λ all.
            all ≡ with_place place (base_places self.now.ops (at self.now.ops place))) }
    {
        let mut all = self.base(place).copy(alloc)?;
        all.insert(place)?;
        Ok(all)
    }

    /// The last place of a base, if its change is based on those at all others. `None` where no
    /// changes conflict, since then there are no rows to look at.
    fn last_of_base(&self, alloc: Global, based: &PlaceSet) -> Result<Option<u32>, NoMemory>
        requires { All (λ other. other < length self.now.ops) based.now }
        ensures last { IfOk result (λ found. IfSome found (λ last. has based.now last ≡ true)) }
        ensures all { IfOk result (λ found. IfSome found (λ last.
            is_within based.now (with_place last (base_places self.now.ops (at self.now.ops last)))
            ≡ true)) }
    {
        if self.late.is_empty() {
            return Ok(None);
        }
        let Some(last) = last_place(based, self.ops.len() as u32) else {
            return Ok(None);
        };
        let with_base = self.base_with_itself(alloc, last)?;
        if based.is_subset(&with_base) {
            Ok(Some(last))
        } else {
            Ok(None)
        }
    }

    /// The places of the changes that conflict with one of a base. A change conflicts with all that
    /// its base conflicts with, so the last of the base may stand for all.
    fn conflicts_of_base(&self, alloc: Global, based: &PlaceSet) -> Result<PlaceSet, NoMemory>
        requires { All (λ other. other < length self.now.ops) based.now }
        ensures { let count = length self.now.ops in IfOk result (λ conflicting. conflicting
            ≡ filter (conflicts_below (is_conflict_of self.now.ops) based.now count)
            (places count)) }
    {
        let Some(last) = self.last_of_base(alloc, based)? else {
            return self.conflicting_places(alloc, based);
        };
        // That the changes are some history's is part of what stays true of them.
        let _ = &self.ops;
        let scope = PlaceSet::from_places(alloc, &[last])?;
        self.conflicting_places(alloc, &scope)
    }

    /// Those of the places whose changes are at odds with a change.
    fn those_at_odds(&self, alloc: Global, op: &Op, places: &[u32]) -> Result<PlaceSet, NoMemory>
        requires { All (λ place. place < length self.now.ops) places.now }
        ensures { IfOk result (λ all. all
            ≡ with_those (at_odds_at self.now.ops op.now.body) [] places.now) }
    {
        let mut all = PlaceSet::empty(alloc);
        for place in places {
            let at_odds = op.body.is_at_odds(&self.change_at(*place).body);
            all.insert_if(*place, at_odds)?;
        }
        Ok(all)
    }

    /// The places of the changes that conflict directly with a change to be added, but for those of
    /// `conflicting`: of the changes that it doesn't know those at odds with it.
    fn direct_conflicts(
        &self,
        alloc: Global,
        op: &Op,
        candidates: &PlaceSet,
        conflicting: &PlaceSet,
    ) -> Result<PlaceSet, NoMemory>
        requires changes { AreChangesOn self.now.object (self.now.ops ++ op.now ∷ []) }
        requires within { All (λ place. place < length self.now.ops) candidates.now }
        requires at_odds { filter (at_odds_at self.now.ops op.now.body) candidates.now
            ≡ filter (at_odds_at self.now.ops op.now.body) (places_unknown self.now.ops op.now) }
        ensures { IfOk result (λ direct. direct ≡ filter (λ place. not (has conflicting.now place))
            (direct_places self.now.ops op.now)) }
    {
        if candidates.lowest_place().is_none() {
            return Ok(PlaceSet::empty(alloc));
        }
        let others = candidates.without(alloc, conflicting)?;
        let listed = others.list(alloc)?;
        self.those_at_odds(alloc, op, &listed)
    }

    /// The places of the changes that conflict with a change at one of the given places.
    fn conflicting_places(&self, alloc: Global, scope: &PlaceSet) -> Result<PlaceSet, NoMemory>
        ensures { let count = length self.now.ops in IfOk result (λ conflicting. conflicting
            ≡ filter (conflicts_below (is_conflict_of self.now.ops) scope.now count)
            (places count)) }
    {
        let Some(lowest) = scope.lowest_place() else {
            return Ok(PlaceSet::empty(alloc));
        };
        if lowest >= self.ops.len() as u32 {
            return Ok(PlaceSet::empty(alloc));
        }
        union_of_rows(alloc, &self.rows, places_from(&self.late, lowest), scope)
    }

    /// The places of all changes that conflict with some change, once one is added that conflicts
    /// with those of a row.
    fn conflicting_with(&self, alloc: Global, row: &PlaceSet) -> Result<PlaceSet, NoMemory>
        ensures { let place = length self.now.ops in IfOk result (λ all. all
            ≡ with_conflicts row.now place (conflicting_places self.now.ops)) }
    {
        let mut all = self.conflicting.copy(alloc)?;
        self.add_row(row, &mut all)?;
        Ok(all)
    }

    /// Adds the places of a row, and that of the change to be added, unless the row is empty.
    fn add_row(&self, row: &PlaceSet, all: &mut PlaceSet) -> Result<(), NoMemory>
        ensures { OnOk result
            (all.new ≡ with_conflicts row.now (length self.now.ops) all.old) }
    {
        if row.lowest_place().is_some() {
            all.insert_all(row)?;
            all.insert(self.ops.len() as u32)?;
        }
        Ok(())
    }

    /// Is the change at a place, or one of its base, at a place of a direct conflict?
    fn has_direct_conflict(&self, direct: &PlaceSet, place: u32) -> bool
        requires { place < length self.now.ops }
        ensures { let base = base_places self.now.ops (at self.now.ops place)
            in result ≡ list_any (has (place ∷ base)) direct.now }
    {
        direct.has(place) || direct.intersects(self.base(place))
    }

    /// The places of the changes that conflict with a change to be added, by its base and what it
    /// doesn't know. Those that it knows outside its base conflict with the base, and so does what
    /// is based on a conflict of the base. No change is based on a later one. So below the lowest
    /// other direct conflict only those conflict that its base conflicts with.
    fn row(
        &self,
        alloc: Global,
        op: &Op,
        based: &PlaceSet,
        candidates: &PlaceSet,
    ) -> Result<PlaceSet, NoMemory>
        requires changes { AreChangesOn self.now.object (self.now.ops ++ op.now ∷ []) }
        requires base { based.now ≡ base_places self.now.ops op.now }
        requires within { All (λ place. place < length self.now.ops) candidates.now }
        requires at_odds { filter (at_odds_at self.now.ops op.now.body) candidates.now
            ≡ filter (at_odds_at self.now.ops op.now.body) (places_unknown self.now.ops op.now) }
        ensures { IfOk result (λ row. row ≡ new_conflicts self.now.ops op.now) }
    {
        // That the changes are some history's is part of what stays true of them.
        let _ = &self.ops;
        let mut row = self.conflicts_of_base(alloc, based)?;
        let direct = self.direct_conflicts(alloc, op, candidates, &row)?;
        self.add_based_on(&direct, &mut row)?;
        Ok(row)
    }

    /// Adds the places of the direct conflicts and of what is based on them to those that conflict
    /// with a base.
    fn add_based_on(&self, direct: &PlaceSet, row: &mut PlaceSet) -> Result<(), NoMemory>
        ensures { let count = length self.now.ops in (based : List ℕ)
            → All (λ other. other < count) based
            → row.old ≡ filter (conflicts_below (is_conflict_of self.now.ops) based count)
            (places count)
            → OnOk result
            (row.new ≡ filter (is_in_row self.now.ops direct.now based) (places count)) }
    {
        // That the changes are some history's is part of what stays true of them.
        let _ = &self.ops;
        let Some(lowest) = direct.lowest_place() else {
            return Ok(());
        };
        for place in lowest..self.ops.len() as u32 {
            let has_direct = self.has_direct_conflict(direct, place);
            row.insert_if(place, has_direct)?;
        }
        Ok(())
    }
}

impl Relation for ConflictRows {
    ghost use Rattle.std.specs.Prelude.{length};
    ghost use Rattle.rules.specs.Conflicts.{conflict};
    ghost use Rattle.places.specs.steps.Changes.{at};

    ghost size = { λ changes. length changes.ops };

    ghost name_at = { λ changes i. (at changes.ops i).name };

    ghost conflicts = { λ changes i j. conflict changes.ops (at changes.ops i) (at changes.ops j) };

    fn len(&self) -> u32 {
        self.ops.len() as u32
    }

    fn name(&self, i: u32) -> OpName {
        self.change_at(i).name
    }

    fn earlier_conflicts(&self, i: u32) -> &PlaceSet {
        &self.rows[i as usize]
    }

    fn in_conflict(&self) -> &PlaceSet {
        &self.conflicting
    }
}
