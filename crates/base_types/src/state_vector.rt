//! State vectors: maps from sites to counts. An operation carries one to say which operations its
//! author had seen (Sun and Chen, ACM TOCHI 9(1), 2002).

ghost use Rattle.std.specs.Prelude.{◌≡◌, ℕ, List, [], true, false, ◌<◌, length, IfOk, OnErr};
ghost use Rattle.std.specs.List.{HoldsAt};
ghost use Rattle.std.specs.Result.{result_err};
ghost use Rattle.base_types.specs.steps.Faults.{FailsBy, OnFault};
ghost use Rattle.base_types.specs.Vectors.{count_of, counts, covers, pair_fault, vector_fault};
ghost use Rattle.base_types.specs.Vectors.{is_vector};
ghost use Rattle.base_types.specs.steps.Equality.{same_pairs};
ghost use Rattle.base_types.specs.declared.state_vector.VectorFault.TheVariants as vector_fault_of;
ghost use Rattle.std.specs.Cmp.Rules.{comparing};
ghost use Rattle.std.proofs.Common.{rules};

use crate::fault::NoMemory;
use crate::op_name::{MAX_SEQ, MAX_SITE, OpName};
use smallvec::SmallVec;
use std::alloc::{AllocError, Global};
use std::marker::Model;
use thiserror::Error;

/// Why a list of pairs is not a state vector: the fault of the first bad pair, the first variant
/// that applies in this order.
#[derive(Clone, Copy, Debug, PartialEq, Eq, Error)]
pub enum VectorFault {
    /// The site is not from 1 to 256, or the count is above 16,384.
    #[error("a site or a count is out of range")]
    OutOfRange,
    #[error("a count is 0")]
    ZeroCount,
    /// The site is not above the one before it.
    #[error("the sites do not increase strictly")]
    NotRising,
    #[error("out of memory")]
    NoMemory,
}

impl From<AllocError> for VectorFault {
    ghost from_gives = { λ _ fault. fault ≡ vector_fault_of.NoMemory };

    fn from(_fault: AllocError) -> VectorFault {
        VectorFault::NoMemory
    }
}

/// Pairs of a site and a count, of which up to four need no allocation: most vectors have no more.
pub type SitePairs = SmallVec<(u32, u32), 4>;

/// A map from sites to counts: strictly increasing sites from 1 to 256, each with a count from 1 to
/// 16,384.
#[derive(Debug, Drop)]
pub struct StateVector {
    pairs: SitePairs,
}

impl Model for StateVector {
    ghost Value = { List (ℕ × ℕ) };

    ghost view = { λ vector. vector.pairs.items };

    ghost invariant = { λ vector. is_vector vector.pairs.items ≡ true };
}

/// The fault of a pair that follows the site `last`, which is 0 for the first pair.
fn pair_fault(last: u32, pair: (u32, u32)) -> Option<VectorFault>
    ensures { result ≡ pair_fault last pair }
{
    let (site, count) = pair;
    if site < 1 || site > MAX_SITE || count > MAX_SEQ {
        Some(VectorFault::OutOfRange)
    } else if count == 0 {
        Some(VectorFault::ZeroCount)
    } else if site <= last {
        Some(VectorFault::NotRising)
    } else {
        None
    }
}

/// What is wrong with the first bad pair.
#[tactic(auto, unfolding(crate::specs::Vectors::vector_fault))]
fn vector_fault(pairs: &[(u32, u32)]) -> Option<VectorFault>
    ensures { result ≡ vector_fault pairs.now }
{
    let mut last = 0;
    for pair in pairs {
        if let Some(fault) = pair_fault(last, *pair) {
            return Some(fault);
        }
        last = pair.0;
    }
    None
}

/// Do some pairs cover others, both by increasing site? Linear in both.
fn covers(pairs: &[(u32, u32)], others: &[(u32, u32)]) -> bool
    requires pairs { is_vector pairs.now ≡ true }
    requires others { is_vector others.now ≡ true }
    ensures { result ≡ covers pairs.now others.now }
{
    let mut covered = 0;
    for pair in pairs {
        if covered == others.len() {
            return true;
        }
        let other = others[covered];
        if other.0 < pair.0 {
            return false;
        }
        if other.0 == pair.0 {
            if other.1 > pair.1 {
                return false;
            }
            covered += 1;
        }
    }
    covered == others.len()
}

impl StateVector {
    /// The vector that counts nothing.
    #[tactic(auto, unfolding(crate::specs::Vectors::vector_fault))]
    pub fn empty(alloc: Global) -> StateVector
        ensures { result ≡ [] }
    {
        StateVector {
            pairs: SmallVec::new(alloc),
        }
    }

    /// Makes a vector of a copy of these pairs of a site and a count. Linear in their number.
    ///
    /// # Errors
    ///
    /// - `OutOfRange`, `ZeroCount` or `NotRising`, the first that applies to the first bad pair.
    /// - `NoMemory` if an allocation failed.
    pub fn from_pairs(alloc: Global, pairs: &[(u32, u32)]) -> Result<StateVector, VectorFault>
        ensures ok { IfOk result (λ vector. (vector ≡ pairs.now) × (is_vector pairs.now ≡ true)) }
        ensures fault { FailsBy VectorFault.NoMemory (vector_fault pairs.now) result }
        ensures invalid { OnFault VectorFault.NoMemory result (is_vector pairs.now ≡ false) }
    {
        if let Some(fault) = vector_fault(pairs) {
            return Err(fault);
        }
        let pairs = SmallVec::from_slice(alloc, pairs)?;
        Ok(StateVector { pairs })
    }

    /// Makes a vector of these pairs of a site and a count, without an allocation.
    ///
    /// # Errors
    ///
    /// `OutOfRange`, `ZeroCount` or `NotRising`, the first that applies to the first bad pair.
    pub fn from_site_pairs(pairs: SitePairs) -> Result<StateVector, VectorFault>
        ensures ok { IfOk result (λ vector. vector ≡ pairs.items) }
        ensures fault { result_err result ≡ vector_fault pairs.items }
        ensures invalid { OnErr result (is_vector pairs.items ≡ false) }
    {
        match vector_fault(&pairs) {
            Some(fault) => Err(fault),
            None => Ok(StateVector { pairs }),
        }
    }

    /// The place of the site's pair, or the place where it would go.
    fn search(&self, site: u32) -> Result<usize, usize>
        ensures range { IfOk result (λ place. place < length self.now) }
        ensures found { IfOk result (HoldsAt (λ pair. pair.1 ≡ count_of self.now site) self.now) }
        ensures absent { OnErr result (count_of self.now site ≡ 0) }
    {
        self.pairs.binary_search_by_key(&site, |pair| pair.0)
    }

    /// The site's count, 0 where the site is absent. A binary search.
    pub fn count(&self, site: u32) -> u32
        ensures { result ≡ count_of self.now site }
    {
        match self.search(site) {
            Ok(place) => self.pairs[place].1,
            Err(_) => 0,
        }
    }

    /// Does the vector count the operation of this name?
    pub fn has(&self, name: OpName) -> bool
        ensures { result ≡ counts self.now name }
    {
        name.seq() <= self.count(name.site())
    }

    /// Does it count everything that the other vector counts? Linear in both.
    pub fn covers(&self, other: &StateVector) -> bool
        ensures { result ≡ covers self.now other.now }
    {
        covers(&self.pairs, &other.pairs)
    }

    /// Its pairs of a site and a count, by increasing site.
    pub fn pairs(&self) -> &[(u32, u32)]
        ensures pairs { result.now ≡ self.now }
        ensures range { is_vector self.now ≡ true }
    {
        &self.pairs
    }

    /// Returns an equal copy.
    ///
    /// # Errors
    ///
    /// `NoMemory` if an allocation failed.
    pub fn copy(&self, alloc: Global) -> Result<StateVector, NoMemory>
        ensures { IfOk result (λ vector. vector ≡ self.now) }
    {
        let pairs = SmallVec::from_slice(alloc, &self.pairs)?;
        Ok(StateVector { pairs })
    }
}

impl PartialEq for StateVector {
    ghost eq = { same_pairs };

    ghost laws = { Prim.search (comparing, rules) };

    fn eq(&self, other: &StateVector) -> bool {
        self.pairs.as_slice() == other.pairs.as_slice()
    }
}

impl Eq for StateVector {
    ghost laws = { Prim.search (comparing, rules) };
}
