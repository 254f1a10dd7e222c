//! The versions of an object, as they are shown.

ghost use Rattle.std.specs.Prelude.{◌≡◌, List, IfOk};
ghost use Rattle.std.specs.Cmp.Rules.{comparing};
ghost use Rattle.std.proofs.Common.{rules};
ghost use Rattle.base_types.specs.steps.Equality.{same_value-equivalence};
ghost use Rattle.rules.specs.AttrLists.{Attr};
ghost use Rattle.rules.specs.steps.AttrLists.{same_attrs};

use crate::attrs::copy_pairs;
use base_types::{Key, NoMemory, Value, VersionId};
use std::alloc::Global;
use std::marker::Model;

/// The attributes of a version, by increasing key.
#[derive(Debug, Drop)]
pub struct AttrList {
    pairs: Vec<(Key, Value)>,
}

impl Model for AttrList {
    ghost Value = { List Attr };

    ghost view = { λ list. list.pairs.items };
}

impl AttrList {
    /// These pairs, in their order. Takes no memory.
    pub fn from_vec(pairs: Vec<(Key, Value)>) -> AttrList
        ensures { result ≡ pairs.items }
    {
        AttrList { pairs }
    }

    /// The pairs of a key and a value.
    pub fn as_slice(&self) -> &[(Key, Value)]
        ensures { result.now ≡ self.now }
    {
        &self.pairs
    }

    /// Returns an equal copy.
    ///
    /// # Errors
    ///
    /// `NoMemory` if an allocation failed.
    pub fn copy(&self, alloc: Global) -> Result<AttrList, NoMemory>
        ensures { IfOk result (λ list. list ≡ self.now) }
    {
        let pairs = copy_pairs(alloc, &self.pairs)?;
        Ok(AttrList { pairs })
    }
}

/// What is shown of a version: its attributes, or that a drop deleted it.
#[derive(Debug, Drop)]
pub enum Shown {
    Attrs(AttrList),
    Gone,
}

impl Shown {
    /// Returns an equal copy.
    ///
    /// # Errors
    ///
    /// `NoMemory` if an allocation failed.
    pub fn copy(&self, alloc: Global) -> Result<Shown, NoMemory>
        ensures { IfOk result (λ shown. shown ≡ self.now) }
    {
        match self {
            Shown::Attrs(attrs) => Ok(Shown::Attrs(attrs.copy(alloc)?)),
            Shown::Gone => Ok(Shown::Gone),
        }
    }
}

impl PartialEq for Shown {
    ghost use Rattle.std.specs.Cmp.{partial_equiv_from_equiv};
    ghost use Rattle.rules.specs.steps.Equality.{same_shown, same_shown-equivalence};

    ghost eq = { same_shown };

    ghost laws = { partial_equiv_from_equiv same_shown-equivalence };

    fn eq(&self, other: &Shown) -> bool {
        match (self, other) {
            (Shown::Attrs(attrs), Shown::Attrs(other_attrs)) => *attrs == *other_attrs,
            (Shown::Gone, Shown::Gone) => true,
            _ => false,
        }
    }
}

impl Eq for Shown {
    ghost use Rattle.rules.specs.steps.Equality.{same_shown-equivalence};

    ghost laws = { same_shown-equivalence };
}

/// A version of an object: the identifier that tells it from the others, and what is shown of it.
#[derive(Debug, Drop, PartialEq, Eq)]
pub struct Version {
    pub id: VersionId,
    pub shown: Shown,
}

impl Version {
    /// Returns an equal copy.
    ///
    /// # Errors
    ///
    /// `NoMemory` if an allocation failed.
    pub fn copy(&self, alloc: Global) -> Result<Version, NoMemory>
        ensures { IfOk result (λ version. version ≡ self.now) }
    {
        let id = self.id.copy(alloc)?;
        let shown = self.shown.copy(alloc)?;
        Ok(Version { id, shown })
    }
}

impl PartialEq for AttrList {
    ghost eq = { same_attrs };

    ghost laws = { Prim.search (comparing, same_value-equivalence, rules) };

    fn eq(&self, other: &AttrList) -> bool {
        self.pairs.as_slice() == other.pairs.as_slice()
    }
}

impl Eq for AttrList {
    ghost laws = { Prim.search (comparing, same_value-equivalence, rules) };
}
