//! The attributes that a put gives.

ghost use Rattle.std.specs.Prelude.{◌≡◌, [], ◌∷◌, List, true, false, IfOk, OnErr, OnOk};
ghost use Rattle.std.specs.List.{list_any};
ghost use Rattle.std.specs.Result.{result_err};
ghost use Rattle.std.specs.Cmp.Rules.{comparing};
ghost use Rattle.std.proofs.Common.{rules};
ghost use Rattle.base_types.specs.steps.Equality.{same_value-equivalence};
ghost use Rattle.rules.specs.AttrLists.{Attr, do_pairs_differ, pairs_fault, are_pairs};
ghost use Rattle.rules.specs.steps.Keys.{gives_another};
ghost use Rattle.rules.specs.steps.AttrLists.{same_attrs};

use crate::attrs::{copy_pairs, repeated_key};
use base_types::{Key, NoMemory, Value};
use std::alloc::Global;
use std::marker::Model;
use std::slice;
use thiserror::Error;

/// Why a list is not a list of a put's attributes: the first variant that applies, in this order.
#[derive(Clone, Copy, Debug, PartialEq, Eq, Error)]
pub enum PairsFault {
    #[error("there is no attribute")]
    Empty,
    #[error("there are more than 16 attributes")]
    TooMany,
    /// The first place, from 0, whose key is also at an earlier place.
    #[error("the key at place {0} is repeated")]
    Repeated(usize),
}

/// Most puts give one attribute, which needs no list.
#[derive(Debug, Drop)]
enum Held {
    One((Key, Value)),
    Several(Vec<(Key, Value)>),
}

/// The attributes of a put: 1 to 16, with different keys, in the order given.
#[derive(Debug, Drop)]
pub struct Pairs {
    held: Held,
}

impl Model for Pairs {
    ghost use Rattle.std.specs.Prelude.{◌≡◌, List, true};
    ghost use Rattle.rules.specs.AttrLists.{Attr, are_pairs};
    ghost use Rattle.rules.specs.steps.HeldPairs.{pairs_held};

    ghost Value = { List Attr };

    ghost view = { λ pairs. pairs_held pairs.held };

    ghost invariant = { λ pairs. are_pairs (pairs_held pairs.held) ≡ true };
}

/// Does one of the pairs give the key a value other than this one?
fn give_another(pairs: &[(Key, Value)], key: &Key, value: &Value) -> bool
    ensures { result ≡ gives_another key.now value.now pairs.now }
{
    pairs.iter().any(|pair| pair.0 == *key && *value != pair.1)
}

/// Does one of the first pairs have a key to which the second ones give another value?
fn do_differ(first: &[(Key, Value)], second: &[(Key, Value)]) -> bool
    ensures { result ≡ list_any (λ pair. gives_another pair.0 pair.1 second.now) first.now }
{
    first
        .iter()
        .any(|pair| give_another(second, &pair.0, &pair.1))
}

impl Pairs {
    /// Makes a put's attributes of these pairs, in their order, without an allocation. Compares a
    /// key with those before it only where one of them has its mark.
    ///
    /// # Errors
    ///
    /// - `Empty` if there are none.
    /// - `TooMany` if there are more than 16.
    /// - `Repeated` with the first place whose key is also at an earlier place.
    #[tactic(auto, unfolding(crate::specs::AttrLists::pairs_fault))]
    pub fn from_pairs(pairs: Vec<(Key, Value)>) -> Result<Pairs, PairsFault>
        ensures ok { IfOk result (λ given. given ≡ pairs.items) }
        ensures fault { result_err result ≡ pairs_fault pairs.items }
        ensures range { OnOk result (are_pairs pairs.items ≡ true) }
        ensures invalid { OnErr result (are_pairs pairs.items ≡ false) }
    {
        if pairs.is_empty() {
            return Err(PairsFault::Empty);
        }
        if pairs.len() > 16 {
            return Err(PairsFault::TooMany);
        }
        match repeated_key(&pairs) {
            Some(place) => Err(PairsFault::Repeated(place)),
            None => Ok(Pairs {
                held: Held::Several(pairs),
            }),
        }
    }

    /// One pair alone. Takes no memory.
    #[tactic(auto, unfolding(crate::specs::AttrLists::pairs_fault))]
    pub fn one(key: Key, value: Value) -> Pairs
        ensures { result ≡ (key, value) ∷ [] }
    {
        Pairs {
            held: Held::One((key, value)),
        }
    }

    /// The pairs of a key and a value, in the order given.
    pub fn pairs(&self) -> &[(Key, Value)]
        ensures pairs { result.now ≡ self.now }
        ensures range { are_pairs self.now ≡ true }
    {
        match &self.held {
            Held::One(pair) => slice::from_ref(pair),
            Held::Several(pairs) => pairs,
        }
    }

    /// Do these and the others give some key different values?
    pub fn differ(&self, others: &Pairs) -> bool
        ensures { result ≡ do_pairs_differ self.now others.now }
    {
        let others = others.pairs();
        do_differ(self.pairs(), others)
    }

    /// Returns an equal copy.
    ///
    /// # Errors
    ///
    /// `NoMemory` if an allocation failed.
    pub fn copy(&self, alloc: Global) -> Result<Pairs, NoMemory>
        ensures { IfOk result (λ pairs. pairs ≡ self.now) }
    {
        let held = match &self.held {
            Held::One((key, value)) => Held::One((key.copy(alloc)?, value.copy(alloc)?)),
            Held::Several(pairs) => Held::Several(copy_pairs(alloc, pairs)?),
        };
        Ok(Pairs { held })
    }
}

impl PartialEq for Pairs {
    ghost eq = { same_attrs };

    ghost laws = { Prim.search (comparing, same_value-equivalence, rules) };

    fn eq(&self, other: &Pairs) -> bool {
        self.pairs() == other.pairs()
    }
}

impl Eq for Pairs {
    ghost laws = { Prim.search (comparing, same_value-equivalence, rules) };
}
