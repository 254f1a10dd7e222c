//! A change that is planned for an object.

ghost use Rattle.std.specs.Prelude.{◌≡◌, ◌+◌, ◌<◌, ◌^◌, ◌++◌, ◌∷◌, [], List, length};
ghost use Rattle.rules.specs.declared.history.Op.{Op};
ghost use Rattle.places.specs.steps.Changes.{IsAddition};

use crate::ConflictRows;
use base_types::OpName;
use places::{PlaceSet, Relation};
use rules::SharedOp;
use std::marker::Model;

/// A change that `ConflictRows::plan` made ready, with the places of its base and of the changes
/// that it conflicts with.
#[derive(Drop)]
pub struct Addition {
    op: SharedOp,
    base: PlaceSet,
    row: PlaceSet,
    /// The places of all changes that conflict with some change, once this one is added.
    conflicting: PlaceSet,
}

impl Model for Addition {
    ghost use Rattle.places.specs.steps.Changes.{Added};

    ghost Value = { Added };

    ghost view = { λ addition.
        record {
          op = addition.op;
          base = addition.base;
          row = addition.row;
          conflicting = addition.conflicting;
        } };
}

impl Addition {
    pub(crate) fn new(
        op: SharedOp,
        base: PlaceSet,
        row: PlaceSet,
        conflicting: PlaceSet,
    ) -> Addition
        ensures { result
            ≡ record { op = op; base = base; row = row; conflicting = conflicting } }
    {
        Addition {
            op,
            base,
            row,
            conflicting,
        }
    }

    /// The change.
    pub fn op(&self) -> &SharedOp
        ensures { result.now ≡ self.now.op }
    {
        &self.op
    }

    /// The places of the changes that it is in conflict with.
    pub(crate) fn row(&self) -> &PlaceSet
        ensures { result.now ≡ self.now.row }
    {
        &self.row
    }

    /// The places of all changes that conflict with some change, once this one is added.
    pub(crate) fn conflicting(&self) -> &PlaceSet
        ensures { result.now ≡ self.now.conflicting }
    {
        &self.conflicting
    }

    pub(crate) fn into_parts(self) -> (SharedOp, PlaceSet, PlaceSet, PlaceSet)
        ensures { result ≡ (self.op, self.base, self.row, self.conflicting) }
    {
        (self.op, self.base, self.row, self.conflicting)
    }
}

/// The changes on an object and one that is planned for them, as a relation.
#[derive(Drop)]
pub struct WithAddition<'a> {
    changes: &'a ConflictRows,
    addition: &'a Addition,
}

impl<'a> Model for WithAddition<'a> {
    ghost use Rattle.std.specs.Prelude.{◌+◌, ◌<◌, ◌^◌, List, [], ◌∷◌, ◌++◌, length};
    ghost use Rattle.rules.specs.declared.history.Op.{Op};
    ghost use Rattle.places.specs.steps.Changes.{IsAddition};

    ghost Value = { List Op };

    ghost view = { λ all. all.changes.now.ops ++ all.addition.now.op ∷ [] };

    ghost invariant = { λ all. IsAddition all.changes.now.object all.changes.now.ops
        all.addition.now
        × (length all.changes.now.ops + 1 < 2 ^ 32) };
}

impl<'a> WithAddition<'a> {
    pub(crate) fn new(changes: &'a ConflictRows, addition: &'a Addition) -> WithAddition<'a>
        requires ready { IsAddition changes.now.object changes.now.ops addition.now }
        requires few { length changes.now.ops + 1 < 2 ^ 32 }
        ensures { result ≡ changes.now.ops ++ addition.now.op ∷ [] }
    {
        WithAddition { changes, addition }
    }
}

impl<'a> Relation for WithAddition<'a> {
    ghost use Rattle.std.specs.Prelude.{length};
    ghost use Rattle.rules.specs.Conflicts.{conflict};
    ghost use Rattle.places.specs.steps.Changes.{at};

    ghost size = { λ ops. length ops };

    ghost name_at = { λ ops i. (at ops i).name };

    ghost conflicts = { λ ops i j. conflict ops (at ops i) (at ops j) };

    fn len(&self) -> u32 {
        self.changes.len() + 1
    }

    fn name(&self, i: u32) -> OpName {
        if i < self.changes.len() {
            self.changes.name(i)
        } else {
            self.addition.op().name
        }
    }

    fn earlier_conflicts(&self, i: u32) -> &PlaceSet {
        if i < self.changes.len() {
            self.changes.earlier_conflicts(i)
        } else {
            self.addition.row()
        }
    }

    fn in_conflict(&self) -> &PlaceSet {
        self.addition.conflicting()
    }
}
