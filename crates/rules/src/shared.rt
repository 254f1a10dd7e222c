//! Operations with several owners.

ghost use Rattle.std.specs.Prelude.{◌≡◌, IfOk};
ghost use Rattle.std.specs.Arc.{arc_value};
ghost use Rattle.rules.specs.declared.history.Entry.TheVariants.{Operation};

use crate::history::{Entry, Op};
use base_types::NoMemory;
use std::alloc::Global;
use std::marker::Model;
use std::ops::Deref;
use std::sync::Arc;

/// An operation that is stored once, as an entry of a record, for any number of owners. Contracts
/// see the operation.
#[derive(Debug, Drop)]
pub struct SharedOp {
    entry: Arc<Entry>,
}

impl Model for SharedOp {
    ghost use Rattle.std.specs.Prelude.{◌≡◌};
    ghost use Rattle.std.specs.Arc.{arc_value};
    ghost use Rattle.rules.specs.declared.history.Op.{Op};
    ghost use Rattle.rules.specs.declared.history.Entry.TheVariants.{Operation};
    ghost use Rattle.rules.specs.steps.Shared.{held};

    ghost Value = { Op };

    ghost view = { λ shared. held (arc_value shared.entry) };

    ghost invariant = { λ shared.
        arc_value shared.entry ≡ Operation (held (arc_value shared.entry)) };
}

impl SharedOp {
    /// Stores an operation, with one owner.
    ///
    /// # Errors
    ///
    /// `NoMemory` if an allocation failed.
    pub fn new(alloc: Global, op: Op) -> Result<SharedOp, NoMemory>
        ensures { IfOk result (λ shared. shared ≡ op) }
    {
        let entry = Arc::new(alloc, Entry::Operation(op))?;
        Ok(SharedOp { entry })
    }

    /// The operation as an entry, with one more owner.
    ///
    /// # Errors
    ///
    /// `NoMemory` if the count of owners is at its maximum.
    pub fn entry(&self) -> Result<Arc<Entry>, NoMemory>
        ensures { IfOk result (λ entry. arc_value entry ≡ Operation self.now) }
    {
        Ok(self.entry.clone()?)
    }

    /// The same operation, with one more owner.
    ///
    /// # Errors
    ///
    /// `NoMemory` if the count of owners is at its maximum.
    pub fn share(&self) -> Result<SharedOp, NoMemory>
        ensures { IfOk result (λ shared. shared ≡ self.now) }
    {
        let entry = self.entry.clone()?;
        Ok(SharedOp { entry })
    }
}

impl Deref for SharedOp {
    ghost use Rattle.std.specs.Prelude.{◌≡◌};

    type Target = Op;

    ghost deref_gives = { λ shared op. op ≡ shared };

    fn deref(&self) -> &Op {
        match &*self.entry {
            Entry::Operation(op) => op,
            Entry::Join(_) | Entry::Next(_) => unreachable!(),
        }
    }
}
