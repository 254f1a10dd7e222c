//! The initial attributes of an object.

ghost use Rattle.std.specs.Prelude.{◌≡◌, ◌++◌, ◌∷◌, [], List, true, false, IfOk, OnErr, OnOk, bytes_eq};
ghost use Rattle.std.specs.List.{list_any};
ghost use Rattle.std.specs.Result.{result_err};
ghost use Rattle.base_types.specs.Repeats.{first_repeat};
ghost use Rattle.std.specs.Cmp.Rules.{comparing};
ghost use Rattle.std.proofs.Common.{rules};
ghost use Rattle.base_types.specs.steps.Equality.{same_value-equivalence};
ghost use Rattle.rules.specs.AttrLists.{Attr, same_key, attrs_fault, are_attrs};
ghost use Rattle.rules.specs.steps.AttrLists.{same_attrs};
ghost use Rattle.rules.specs.steps.Marks.{mark_of};

use base_types::{Key, NoMemory, Value};
use std::alloc::Global;
use std::marker::Model;
use thiserror::Error;

/// How many marks of keys there are.
const MARKS: usize = 64;

/// Why a list is not a list of initial attributes: the first variant that applies, in this order.
#[derive(Clone, Copy, Debug, PartialEq, Eq, Error)]
pub enum AttrsFault {
    #[error("there are more than 16 attributes")]
    TooMany,
    /// The first place, from 0, whose key is also at an earlier place.
    #[error("the key at place {0} is repeated")]
    Repeated(usize),
}

/// The attributes of a creation: at most 16, with different keys, in the order given.
#[derive(Debug, Drop)]
pub struct Attrs {
    pairs: Vec<(Key, Value)>,
}

impl Model for Attrs {
    ghost Value = { List Attr };

    ghost view = { λ attrs. attrs.pairs.items };

    ghost invariant = { λ attrs. are_attrs attrs.pairs.items ≡ true };
}

/// Does one of the pairs have this key? Linear in the pairs.
pub fn has_key(pairs: &[(Key, Value)], key: &Key) -> bool
    ensures { result ≡ list_any (λ pair. bytes_eq key.now pair.0) pairs.now }
{
    pairs.iter().any(|pair| *key == pair.0)
}

/// Does one of the earlier pairs have the key of this one?
fn is_repeated(pair: &(Key, Value), earlier: &[(Key, Value)]) -> bool
    ensures { result ≡ list_any (λ one. same_key one pair.now) earlier.now }
{
    earlier.iter().any(|one| one.0 == pair.0)
}

/// The mark of a key, less than `MARKS`. Most different keys of an object have different marks.
fn mark_of(key: &Key) -> usize
    ensures { result ≡ mark_of key.now }
{
    let bytes = key.text().as_bytes();
    bytes[bytes.len() - 1] as usize % MARKS
}

/// The first place whose key is also at an earlier place. Compares a key with those before it only
/// where one of them has its mark.
pub(crate) fn repeated_key(pairs: &[(Key, Value)]) -> Option<usize>
    ensures { result ≡ first_repeat same_key pairs.now }
{
    let mut marks = [false; MARKS];
    for (place, pair) in pairs.iter().enumerate() {
        let mark = mark_of(&pair.0);
        if marks[mark] && is_repeated(pair, &pairs[..place]) {
            return Some(place);
        }
        marks[mark] = true;
    }
    None
}

/// Appends an equal copy of the pair.
fn push_copy(
    alloc: Global,
    copies: &mut Vec<(Key, Value)>,
    pair: &(Key, Value),
) -> Result<(), NoMemory>
    ensures { OnOk result (copies.new.items ≡ copies.old.items ++ pair.now ∷ []) }
{
    let key = pair.0.copy(alloc)?;
    let value = pair.1.copy(alloc)?;
    copies.push((key, value))?;
    Ok(())
}

/// Other ones that are equal to these pairs.
pub(crate) fn copy_pairs(
    alloc: Global,
    pairs: &[(Key, Value)],
) -> Result<Vec<(Key, Value)>, NoMemory>
    ensures { IfOk result (λ copies. copies.items ≡ pairs.now) }
{
    let mut copies = Vec::with_capacity(alloc, pairs.len())?;
    for pair in pairs {
        push_copy(alloc, &mut copies, pair)?;
    }
    Ok(copies)
}

impl Attrs {
    /// Makes initial attributes of these pairs, in their order, without an allocation. Compares a
    /// key with those before it only where one of them has its mark.
    ///
    /// # Errors
    ///
    /// - `TooMany` if there are more than 16 pairs.
    /// - `Repeated` with the first place whose key is also at an earlier place.
    #[tactic(auto, unfolding(crate::specs::AttrLists::attrs_fault))]
    pub fn from_pairs(pairs: Vec<(Key, Value)>) -> Result<Attrs, AttrsFault>
        ensures ok { IfOk result (λ attrs. attrs ≡ pairs.items) }
        ensures fault { result_err result ≡ attrs_fault pairs.items }
        ensures range { OnOk result (are_attrs pairs.items ≡ true) }
        ensures invalid { OnErr result (are_attrs pairs.items ≡ false) }
    {
        if pairs.len() > 16 {
            return Err(AttrsFault::TooMany);
        }
        match repeated_key(&pairs) {
            Some(place) => Err(AttrsFault::Repeated(place)),
            None => Ok(Attrs { pairs }),
        }
    }

    /// The pairs of a key and a value, in the order given.
    pub fn pairs(&self) -> &[(Key, Value)]
        ensures pairs { result.now ≡ self.now }
        ensures range { are_attrs self.now ≡ true }
    {
        &self.pairs
    }

    /// Returns an equal copy.
    ///
    /// # Errors
    ///
    /// `NoMemory` if an allocation failed.
    pub fn copy(&self, alloc: Global) -> Result<Attrs, NoMemory>
        ensures { IfOk result (λ attrs. attrs ≡ self.now) }
    {
        let pairs = copy_pairs(alloc, &self.pairs)?;
        Ok(Attrs { pairs })
    }
}

impl PartialEq for Attrs {
    ghost eq = { same_attrs };

    ghost laws = { Prim.search (comparing, same_value-equivalence, rules) };

    fn eq(&self, other: &Attrs) -> bool {
        self.pairs.as_slice() == other.pairs.as_slice()
    }
}

impl Eq for Attrs {
    ghost laws = { Prim.search (comparing, same_value-equivalence, rules) };
}
