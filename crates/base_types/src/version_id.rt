//! The identifiers of versions.

ghost use Rattle.std.specs.Prelude.{◌≡◌, List, [], ℕ, true, false, IfOk, OnErr};
ghost use Rattle.std.specs.Result.{result_err};
ghost use Rattle.std.specs.Ordering.{is_lt, as_partial_cmp};
ghost use Rattle.std.specs.Cmp.{partial_order_from_own_ties};
ghost use Rattle.std.specs.Cmp.Rules.{comparing};
ghost use Rattle.std.proofs.Common.{rules};
ghost use Rattle.base_types.specs.Names.{name_cmp, same_name};
ghost use Rattle.base_types.specs.VersionIds.{names_rise, id_cmp, same_names};
ghost use Rattle.base_types.specs.steps.Faults.{names_fault};
ghost use Rattle.base_types.specs.steps.Equality.{same_names-ties};

use crate::fault::{ListFault, NoMemory};
use crate::op_name::OpName;
use std::alloc::Global;
use std::cmp::Ordering;
use std::marker::Model;

/// The identifier of a version: the names of operations that tell it from the other versions of its
/// object. The names increase strictly. Identifiers are ordered as lists of names, a prefix first.
#[derive(Debug, Drop)]
pub struct VersionId {
    names: Vec<OpName>,
}

impl Model for VersionId {
    ghost Value = { List (ℕ × ℕ) };

    ghost view = { λ id. id.names.items };

    ghost invariant = { λ id. names_rise id.names.items ≡ true };
}

/// Does each name come before the next one?
#[tactic(auto, unfolding(crate::specs::VersionIds::names_rise))]
fn do_names_rise(names: &[OpName]) -> bool
    ensures { result ≡ names_rise names.now }
{
    match names {
        [first, others @ ..] if !others.is_empty() => *first < others[0] && do_names_rise(others),
        _ => true,
    }
}

impl VersionId {
    /// The identifier with no names, of an object's only version.
    #[tactic(auto, unfolding(crate::specs::VersionIds::names_rise))]
    pub fn empty(alloc: Global) -> VersionId
        ensures { result ≡ [] }
    {
        VersionId {
            names: Vec::new(alloc),
        }
    }

    /// Makes an identifier of these names, without an allocation. Linear in their number.
    ///
    /// # Errors
    ///
    /// `NotRising` if the names don't increase strictly.
    pub fn from_vec(names: Vec<OpName>) -> Result<VersionId, ListFault>
        ensures ok { IfOk result (λ id. id ≡ names.items) }
        ensures fault { result_err result ≡ names_fault names.items }
        ensures invalid { OnErr result (names_rise names.items ≡ false) }
    {
        if do_names_rise(&names) {
            Ok(VersionId { names })
        } else {
            Err(ListFault::NotRising)
        }
    }

    /// The names, in increasing order.
    pub fn names(&self) -> &[OpName]
        ensures names { result.now ≡ self.now }
        ensures rise { names_rise self.now ≡ true }
    {
        &self.names
    }

    /// Returns an equal copy.
    ///
    /// # Errors
    ///
    /// `NoMemory` if an allocation failed.
    pub fn copy(&self, alloc: Global) -> Result<VersionId, NoMemory>
        ensures { IfOk result (λ id. id ≡ self.now) }
    {
        let names = Vec::from_slice(alloc, &self.names)?;
        Ok(VersionId { names })
    }
}

impl PartialEq for VersionId {
    ghost eq = { same_names };

    ghost laws = { Prim.search (comparing, rules) };

    fn eq(&self, other: &VersionId) -> bool {
        self.names.as_slice() == other.names.as_slice()
    }
}

impl Eq for VersionId {
    ghost laws = { Prim.search (comparing, rules) };
}

impl PartialOrd for VersionId {
    ghost partial_cmp = { as_partial_cmp id_cmp };

    ghost laws = { partial_order_from_own_ties (Prim.search (comparing, rules)) same_names-ties };

    fn partial_cmp(&self, other: &VersionId) -> Option<Ordering> {
        Some(self.cmp(other))
    }
}

impl Ord for VersionId {
    ghost cmp = { id_cmp };

    ghost total = { Prim.search (comparing, rules) };

    ghost matches_partial_cmp = { Prim.search (comparing, rules) };

    ghost matches_eq = { same_names-ties };

    fn cmp(&self, other: &VersionId) -> Ordering {
        self.names.as_slice().cmp(other.names.as_slice())
    }
}
