//! An entry that is ready to be added to a drawing.

ghost use Rattle.std.specs.Prelude.{◌≡◌, option_map};
ghost use Rattle.std.specs.Arc.{arc_value};
ghost use Rattle.rules.specs.Records.{is_end, is_join};
ghost use Rattle.drawing.specs.steps.State.{DrawingState};
ghost use Rattle.drawing.specs.steps.Additions.{IsReady, ids_of};

use rules::{Entry, SharedOp};
use shape::{PlannedChange, Shape};
use std::alloc::Global;
use std::marker::Model;
use std::sync::Arc;
use wire::SharedIds;

/// What an entry adds to a drawing beside itself.
#[derive(Drop)]
pub(crate) enum Part {
    /// An entry that is no operation adds nothing.
    Alone,
    /// A creation adds the operation and its object.
    Creation(SharedOp, Box<Shape>),
    /// A change adds the operation, and what is planned for its object, which stands at this place.
    Change(usize, SharedOp, Box<PlannedChange>),
}

/// An entry that can be added to a drawing without an allocation. Only the plans of `Drawing` make
/// one.
#[derive(Drop)]
pub struct Addition {
    pub(crate) entry: Arc<Entry>,
    pub(crate) part: Part,
}

impl Model for Addition {
    ghost use Rattle.std.specs.Arc.{arc_value};
    ghost use Rattle.drawing.specs.steps.Additions.{Added};

    ghost Value = { Added };

    ghost view = { λ addition. record { entry = arc_value addition.entry; part = addition.part } };
}

impl Addition {
    /// The entry that will be added.
    pub fn entry(&self) -> &Arc<Entry>
        ensures { arc_value result.now ≡ self.now.entry }
    {
        &self.entry
    }

    /// Is the entry a join?
    pub fn is_join(&self) -> bool
        ensures { result ≡ is_join self.now.entry }
    {
        self.entry.is_join()
    }

    /// Does the entry end the record?
    pub fn is_end(&self) -> bool
        ensures { result ≡ is_end self.now.entry }
    {
        self.entry.is_end()
    }

    /// Takes out the identifiers of the object's versions after the change. Other entries have
    /// none. What is planned stays as it is.
    pub fn take_ids(&mut self, alloc: Global) -> Option<SharedIds>
        ensures ids { option_map (λ ids. ids.items) result ≡ ids_of self.old.part }
        ensures entry { self.new.entry ≡ self.old.entry }
        ensures ready { (s : DrawingState) → IsReady s self.old → IsReady s self.new }
    {
        match &mut self.part {
            Part::Alone | Part::Creation(..) => None,
            Part::Change(_, _, planned) => Some(planned.take_ids(alloc)),
        }
    }
}
