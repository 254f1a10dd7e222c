//! The changes of one object, and which of them conflict.

ghost use Rattle.std.specs.Prelude.{◌≡◌, ℕ, true, ◌<◌, [], ◌∷◌, ◌++◌, length, filter, bytes_eq, All, IsOk, IfOk, OnOk};
ghost use Rattle.std.specs.List.{list_any};
ghost use Rattle.rules.specs.Bodies.{is_drop_body, keys_of_body};
ghost use Rattle.places.specs.steps.PlaceSet.{has, AreBelow};
ghost use Rattle.conflict_rows.specs.steps.Rows.{at_odds_at, places_outside, places_unknown};
ghost use Rattle.places.specs.steps.Changes.{at, base_places, places_counted, AreChangesOn, IsAddition};
ghost use Rattle.changes_by_site.specs.steps.Indexes.{known_of};

use base_types::{Key, NoMemory, OpName, StateVector};
use changes_by_key::ByKey;
use changes_by_site::{BySite, Known};
use conflict_rows::{Addition, ConflictRows, WithAddition};
use places::{PlaceSet, Relation};
use rules::{Body, Op, SharedOp};
use std::alloc::Global;
use std::marker::Model;

/// The changes of one object in order of arrival, by their places, which count from 0. Each has the
/// places of its base. Its conflicts with earlier changes are computed once, before it is added.
#[derive(Drop)]
pub struct ObjectChanges {
    rows: ConflictRows,
    /// The places of the first changes by site; those of the puts by key, and of the drops. Since
    /// `commit` takes no memory, a change is in them only from the next `plan` on.
    sites: BySite,
    keys: ByKey,
}

impl Model for ObjectChanges {
    ghost use Rattle.places.specs.steps.Changes.{Changes};
    ghost use Rattle.conflict.specs.steps.Indexed.{AreIndexed};

    ghost Value = { Changes };

    ghost view = { λ changes. changes.rows };

    ghost invariant = { λ changes. AreIndexed changes.rows.ops changes.sites changes.keys };
}

impl ObjectChanges {
    /// No changes of an object, without an allocation. Always `Ok`.
    pub fn new(alloc: Global, object: OpName) -> Result<ObjectChanges, NoMemory>
        ensures certain { IsOk result }
        ensures object { IfOk result (λ changes. changes.object ≡ object) }
        ensures none { IfOk result (λ changes. changes.ops ≡ []) }
    {
        Ok(ObjectChanges {
            rows: ConflictRows::new(alloc, object),
            sites: BySite::new(alloc),
            keys: ByKey::new(alloc),
        })
    }

    /// Computes what is needed to add a change of the object, and takes the memory for it. So
    /// `commit` can't fail. The changes stay as they are.
    ///
    /// The change precedes none of these in causal order, and knows no other changes of the object.
    /// The caller gives the places of its base, and the changes that it knows.
    ///
    /// Looks at each change that conflicts with an earlier one. Where the last change of the base
    /// is based on the others, it begins there. It also looks at all changes from the first unknown
    /// one on that conflicts with the change and not with its base. Of the unknown changes that
    /// don't conflict with the base, it compares a put with the drops and with the puts of its
    /// keys, and a drop with all. Everything else takes 64 places at a time, for a put once a key.
    ///
    /// # Errors
    ///
    /// `NoMemory` if an allocation failed.
    pub fn plan(
        &mut self,
        alloc: Global,
        op: SharedOp,
        base: PlaceSet,
        known: &Known,
    ) -> Result<Addition, NoMemory>
        // What is known of the change.
        requires changes { AreChangesOn self.old.object (self.old.ops ++ op ∷ []) }
        requires base { base ≡ base_places self.old.ops op }
        requires known { known_of known.now (length self.old.ops)
            ≡ places_counted self.old.ops op.seen }
        // What is planned.
        ensures op { IfOk result (λ addition. addition.op ≡ op) }
        ensures ready { IfOk result (λ addition.
            IsAddition self.new.object self.new.ops addition) }
        ensures spare { OnOk result (0 < self.new.spare) }
        // The changes stay as they are.
        ensures object { self.new.object ≡ self.old.object }
        ensures ops { self.new.ops ≡ self.old.ops }
    {
        let candidates = self.candidates_now(alloc, &op, known)?;
        self.rows.plan(alloc, op, base, &candidates)
    }

    /// Adds a change that was planned for these, without an allocation.
    pub fn commit(&mut self, addition: Addition)
        requires ready { IsAddition self.old.object self.old.ops addition }
        requires spare { 0 < self.old.spare }
        ensures object { self.new.object ≡ self.old.object }
        ensures ops { self.new.ops ≡ self.old.ops ++ addition.op ∷ [] }
    {
        self.rows.commit(addition);
    }

    /// These changes and one that was planned for them, as a relation.
    pub fn with<'a>(&'a self, addition: &'a Addition) -> WithAddition<'a>
        requires { IsAddition self.now.object self.now.ops addition.now }
        ensures { result ≡ self.now.ops ++ addition.now.op ∷ [] }
    {
        self.rows.with(addition)
    }

    /// The places of the base of the change at a place.
    pub fn base(&self, i: u32) -> &PlaceSet
        requires { i < length self.now.ops }
        ensures { result.now ≡ base_places self.now.ops (at self.now.ops i) }
    {
        self.rows.base(i)
    }

    /// The changes in the order in which they were added. They are all changes of the object in
    /// some history, in causal order, and each has a base.
    pub fn ops(&self) -> &[SharedOp]
        ensures changes { result.now ≡ self.now.ops }
        ensures object { AreChangesOn self.now.object self.now.ops }
    {
        self.rows.ops()
    }

    /// Which of the changes a vector counts. One look-up for each site that they come from, and for
    /// each change since the last `plan`.
    ///
    /// # Errors
    ///
    /// `NoMemory` if an allocation failed.
    pub fn known(&self, alloc: Global, seen: &StateVector) -> Result<Known, NoMemory>
        ensures { let ops = self.now.ops in IfOk result (λ known.
            known_of known (length ops) ≡ places_counted ops seen.now) }
    {
        self.sites.known(alloc, self.rows.ops(), seen)
    }

    /// Does a change give the key a value? Compares the different keys, the guessed one first, and
    /// the changes since the last `plan`. The guess changes the time alone.
    pub fn has_key(&self, guess: usize, key: &Key) -> bool
        ensures { result
            ≡ list_any (λ op. list_any (bytes_eq key.now) (keys_of_body op.body)) self.now.ops }
    {
        self.keys.has(self.rows.ops(), guess, key)
    }

    /// Is a change at one of these places a drop? Takes 64 places of the drops at a time, and each
    /// change since the last `plan`.
    pub fn has_drop_at(&self, members: &PlaceSet) -> bool
        ensures { result
            ≡ list_any (λ place. is_drop_body (at self.now.ops place).body) members.now }
    {
        self.keys.has_drop_at(self.rows.ops(), members)
    }

    /// Brings the indexes by site and by key up to date. The changes stay as they are.
    fn catch_up(&mut self, alloc: Global) -> Result<(), NoMemory>
        ensures { self.new ≡ self.old }
    {
        self.sites.catch_up(alloc, self.rows.ops())?;
        self.keys.catch_up(alloc, self.rows.ops())
    }

    /// Of the changes that a change to be added doesn't know, those that may be at odds with it, by
    /// the indexes brought up to date. The changes stay as they are.
    fn candidates_now(
        &mut self,
        alloc: Global,
        op: &Op,
        known: &Known,
    ) -> Result<PlaceSet, NoMemory>
        requires { known_of known.now (length self.old.ops)
            ≡ places_counted self.old.ops op.now.seen }
        ensures within { IfOk result (λ candidates.
            All (λ place. place < length self.old.ops) candidates) }
        ensures same { IfOk result (λ candidates.
            filter (at_odds_at self.old.ops op.now.body) candidates
            ≡ filter (at_odds_at self.old.ops op.now.body) (places_unknown self.old.ops op.now)) }
        ensures kept { self.new ≡ self.old }
    {
        self.catch_up(alloc)?;
        self.candidates(alloc, op, known)
    }

    /// The places of the changes that may be at odds with a body. For a put they are the drops, the
    /// puts of its keys, and the changes since the last `plan`. For a drop they are all places, for
    /// a creation none. One look-up for each key of a put.
    fn that_may_be_at_odds(&self, alloc: Global, body: &Body) -> Result<PlaceSet, NoMemory>
        ensures within { IfOk result (AreBelow (length self.now.ops)) }
        ensures all { IfOk result (λ found. (place : ℕ) → place < length self.now.ops
            → at_odds_at self.now.ops body.now place ≡ true → has found place ≡ true) }
    {
        let count = self.rows.ops().len() as u32;
        match body {
            Body::Put { pairs, .. } => self.keys.maybe_at_odds(alloc, count, pairs.pairs()),
            Body::DropVersion { .. } => PlaceSet::first_places(alloc, count),
            Body::New { .. } => Ok(PlaceSet::empty(alloc)),
        }
    }

    /// Those of the changes that are not known which may be at odds with a body.
    fn unknown_that_may_be_at_odds(
        &self,
        alloc: Global,
        body: &Body,
        known: &PlaceSet,
    ) -> Result<PlaceSet, NoMemory>
        ensures within { IfOk result (λ candidates.
            All (λ place. place < length self.now.ops) candidates) }
        ensures same { let unknown = places_outside known.now (length self.now.ops)
            in IfOk result (λ candidates.
            filter (at_odds_at self.now.ops body.now) candidates
            ≡ filter (at_odds_at self.now.ops body.now) unknown) }
    {
        let found = self.that_may_be_at_odds(alloc, body)?;
        found.rises();
        found.without(alloc, known)
    }

    /// Of the changes that a change to be added doesn't know, those that may be at odds with it.
    /// None, without a look-up, if it knows all.
    fn candidates(&self, alloc: Global, op: &Op, known: &Known) -> Result<PlaceSet, NoMemory>
        requires { known_of known.now (length self.now.ops)
            ≡ places_counted self.now.ops op.now.seen }
        ensures within { IfOk result (λ candidates.
            All (λ place. place < length self.now.ops) candidates) }
        ensures same { IfOk result (λ candidates.
            filter (at_odds_at self.now.ops op.now.body) candidates
            ≡ filter (at_odds_at self.now.ops op.now.body) (places_unknown self.now.ops op.now)) }
    {
        match known {
            Known::All => Ok(PlaceSet::empty(alloc)),
            Known::Places(known) => self.unknown_that_may_be_at_odds(alloc, &op.body, known),
        }
    }
}

impl Relation for ObjectChanges {
    ghost use Rattle.std.specs.Prelude.{length};
    ghost use Rattle.rules.specs.Conflicts.{conflict};
    ghost use Rattle.places.specs.steps.Changes.{at};

    ghost size = { λ changes. length changes.ops };

    ghost name_at = { λ changes i. (at changes.ops i).name };

    ghost conflicts = { λ changes i j. conflict changes.ops (at changes.ops i) (at changes.ops j) };

    fn len(&self) -> u32 {
        self.rows.len()
    }

    fn name(&self, i: u32) -> OpName {
        self.rows.name(i)
    }

    fn earlier_conflicts(&self, i: u32) -> &PlaceSet {
        self.rows.earlier_conflicts(i)
    }

    fn in_conflict(&self) -> &PlaceSet {
        self.rows.in_conflict()
    }
}
