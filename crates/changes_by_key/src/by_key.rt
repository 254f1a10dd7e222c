//! The places of puts by their keys, and the places of drops.

ghost use Rattle.std.specs.Prelude.{◌≡◌, ℕ, ◌+◌, ◌<◌, ◌≤◌, ◌^◌, ◌||◌, List, [], ◌∷◌, true, false, length, bytes_eq, IfOk, OnOk, OnErr, MatchBool};
ghost use Rattle.std.specs.List.{list_any};
ghost use Rattle.base_types.specs.Texts.{Bytes};
ghost use Rattle.rules.specs.declared.history.Op.{Op};
ghost use Rattle.rules.specs.Bodies.{pairs_of_body};
ghost use Rattle.places.specs.steps.PlaceSet.{has, with_place};
ghost use Rattle.places.specs.steps.Changes.{at};
ghost use Rattle.changes_by_key.specs.steps.Indexes.{body_gives, is_drop_at, is_drop_or_gives, key_at, of_key, with_drop, with_key_at, with_new_key, AreByKey, IsUnder};
ghost use Rattle.places.specs.steps.PlaceSet.{AreBelow};
ghost use Rattle.places.specs.steps.Lookups.{IsPlaceOf};

use base_types::{Key, NoMemory, Value};
use places::PlaceSet;
use rules::{Body, Op, SharedOp, has_key};
use std::alloc::Global;
use std::marker::Model;

/// The places of the puts that give a key a value.
#[derive(Drop)]
struct KeyPuts {
    key: Key,
    places: PlaceSet,
}

impl Model for KeyPuts {
    ghost use Rattle.changes_by_key.specs.steps.Indexes.{OfKey};

    ghost Value = { OfKey };

    ghost view = { λ of. record { key = of.key; places = of.places } };
}

impl KeyPuts {
    /// The key with its first put.
    fn of_one(alloc: Global, key: &Key, place: u32) -> Result<KeyPuts, NoMemory>
        ensures { IfOk result (λ of. of ≡ record { key = key.now; places = place ∷ [] }) }
    {
        let places = PlaceSet::from_places(alloc, &[place])?;
        let key = key.copy(alloc)?;
        Ok(KeyPuts { key, places })
    }

    /// Adds a place. `NoMemory` leaves all as it is.
    fn add(&mut self, place: u32) -> Result<(), NoMemory>
        ensures ok { OnOk result
            (self.new ≡ record { key = self.old.key; places = with_place place self.old.places }) }
        ensures err { OnErr result (self.new ≡ self.old) }
    {
        self.places.insert(place)
    }
}

/// Does an operation give the key a value?
fn body_gives(body: &Body, key: &Key) -> bool
    ensures { result ≡ body_gives key.now body.now }
{
    has_key(body.pairs(), key)
}

/// The first `len` changes of an object: the puts by key, and the drops. If an allocation failed,
/// the next put may also be under some of its keys.
#[derive(Drop)]
pub struct ByKey {
    len: u32,
    keys: Vec<KeyPuts>,
    drops: PlaceSet,
}

impl Model for ByKey {
    ghost use Rattle.changes_by_key.specs.steps.Indexes.{KeyIndex};

    ghost Value = { KeyIndex };

    ghost view = { λ index.
        record { len = index.len; keys = index.keys.items; drops = index.drops } };
}

impl ByKey {
    pub fn new(alloc: Global) -> ByKey
        ensures { result ≡ record { len = 0; keys = []; drops = [] } }
    {
        ByKey {
            len: 0,
            keys: Vec::new(alloc),
            drops: PlaceSet::empty(alloc),
        }
    }

    /// The place of the key in the index, if it is there. Looks at the guessed place first: puts
    /// mostly give an object's keys in one order.
    fn find(&self, guess: usize, key: &Key) -> Option<usize>
        ensures { let count = length self.now.keys
            in IsPlaceOf (λ i. (key_at self.now.keys i).key) count key.now result }
    {
        if guess < self.keys.len() && self.keys[guess].key == *key {
            return Some(guess);
        }
        self.keys.iter().position(|puts| puts.key == *key)
    }

    /// Adds the next change under the key at this place of the index.
    fn grow(&mut self, i: usize) -> Result<(), NoMemory>
        requires there { i < length self.old.keys }
        ensures ok { OnOk result (self.new ≡ with_key_at i self.old) }
        ensures err { OnErr result (self.new ≡ self.old) }
    {
        self.keys[i].add(self.len)
    }

    /// Adds the next change under a new key.
    fn begin(&mut self, alloc: Global, key: &Key) -> Result<(), NoMemory>
        ensures ok { OnOk result (self.new ≡ with_new_key key.now self.old) }
        ensures err { OnErr result (self.new ≡ self.old) }
    {
        let puts = KeyPuts::of_one(alloc, key, self.len)?;
        self.keys.push(puts)?;
        Ok(())
    }

    /// Adds the next change under one of its keys. One look-up.
    fn insert(
        &mut self,
        alloc: Global,
        ops: &[SharedOp],
        guess: usize,
        key: &Key,
    ) -> Result<(), NoMemory>
        // What is put in.
        requires more { self.old.len < length ops.now }
        requires given { of_key ops.now key.now self.old.len ≡ true }
        requires keys { AreByKey ops.now self.old }
        // What is in then.
        ensures keys { AreByKey ops.now self.new }
        ensures len { self.new.len ≡ self.old.len }
        ensures there { OnOk result (IsUnder self.new.keys key.now self.old.len) }
        ensures kept { (other : Bytes) (place : ℕ) → IsUnder self.old.keys other place
            → IsUnder self.new.keys other place }
    {
        match self.find(guess, key) {
            Some(i) => self.grow(i),
            None => self.begin(alloc, key),
        }
    }

    /// Adds the next change under each of its keys. After `NoMemory` it may be under some of them.
    fn insert_all(
        &mut self,
        alloc: Global,
        ops: &[SharedOp],
        pairs: &[(Key, Value)],
    ) -> Result<(), NoMemory>
        requires more { self.old.len < length ops.now }
        requires pairs { pairs.now ≡ pairs_of_body (at ops.now self.old.len).body }
        requires keys { AreByKey ops.now self.old }
        ensures keys { AreByKey ops.now self.new }
        ensures len { self.new.len ≡ self.old.len }
        ensures there { OnOk result ((key : Bytes) → of_key ops.now key self.old.len ≡ true
            → IsUnder self.new.keys key self.old.len) }
    {
        for (at, pair) in pairs.iter().enumerate() {
            self.insert(alloc, ops, at, &pair.0)?;
        }
        Ok(())
    }

    /// Adds the next change, a put of these pairs. After `NoMemory` it may be under some of its
    /// keys.
    fn add_put(
        &mut self,
        alloc: Global,
        ops: &[SharedOp],
        pairs: &[(Key, Value)],
    ) -> Result<(), NoMemory>
        // What is put in.
        requires more { self.old.len < length ops.now }
        requires few { length ops.now < 2 ^ 32 }
        requires pairs { pairs.now ≡ pairs_of_body (at ops.now self.old.len).body }
        requires no_drop { is_drop_at ops.now self.old.len ≡ false }
        requires keys { AreByKey ops.now self.old }
        // What is in then.
        ensures keys { AreByKey ops.now self.new }
        ensures len { OnOk result (self.new.len ≡ self.old.len + 1) }
    {
        self.insert_all(alloc, ops, pairs)?;
        self.len += 1;
        Ok(())
    }

    /// Adds the next change, a drop. `NoMemory` leaves all as it is.
    fn add_drop(&mut self) -> Result<(), NoMemory>
        requires few { self.old.len + 1 < 2 ^ 32 }
        ensures ok { OnOk result (self.new ≡ with_drop self.old) }
        ensures err { OnErr result (self.new ≡ self.old) }
    {
        self.drops.insert(self.len)?;
        self.len += 1;
        Ok(())
    }

    /// The next change.
    fn next_op<'a>(&self, ops: &'a [SharedOp]) -> &'a Op
        requires { self.now.len < length ops.now }
        ensures { result.now ≡ at ops.now self.now.len }
    {
        &ops[self.len as usize]
    }

    /// Adds the next change. One look-up for each of its keys. After `NoMemory` it may be under
    /// some of them.
    fn add(&mut self, alloc: Global, ops: &[SharedOp]) -> Result<(), NoMemory>
        requires more { self.old.len < length ops.now }
        requires few { length ops.now < 2 ^ 32 }
        requires keys { AreByKey ops.now self.old }
        ensures keys { AreByKey ops.now self.new }
        ensures len { OnOk result (self.new.len ≡ self.old.len + 1) }
    {
        match &self.next_op(ops).body {
            Body::Put { pairs, .. } => self.add_put(alloc, ops, pairs.pairs()),
            Body::DropVersion { .. } => self.add_drop(),
            Body::New { .. } => {
                self.len += 1;
                Ok(())
            }
        }
    }

    /// Adds the changes that are not in the index yet. After `NoMemory` some of them are added, the
    /// last one perhaps under some of its keys.
    pub fn catch_up(&mut self, alloc: Global, ops: &[SharedOp]) -> Result<(), NoMemory>
        requires few { length ops.now < 2 ^ 32 }
        requires keys { AreByKey ops.now self.old }
        ensures { AreByKey ops.now self.new }
    {
        while (self.len as usize) < ops.len() {
            self.add(alloc, ops)?;
        }
        Ok(())
    }

    /// Does a change that is not in the index yet give the key a value?
    fn is_key_of_unindexed(&self, ops: &[SharedOp], key: &Key) -> bool
        requires few { length ops.now < 2 ^ 32 }
        ensures { MatchBool result
            ((place : ℕ) × (place < length ops.now) × (of_key ops.now key.now place ≡ true))
            ((place : ℕ) → self.now.len ≤ place → place < length ops.now
            → of_key ops.now key.now place ≡ false) }
    {
        for place in self.len..ops.len() as u32 {
            if body_gives(&ops[place as usize].body, key) {
                return true;
            }
        }
        false
    }

    /// Does a change give the key a value? The search begins at the guessed place of the index,
    /// such as that of the key in its put. The guess changes the time alone.
    pub fn has(&self, ops: &[SharedOp], guess: usize, key: &Key) -> bool
        requires few { length ops.now < 2 ^ 32 }
        requires keys { AreByKey ops.now self.now }
        ensures { result ≡ list_any (λ op. body_gives key.now op.body) ops.now }
    {
        self.find(guess, key).is_some() || self.is_key_of_unindexed(ops, key)
    }

    /// Is a change that is not in the index yet a drop at one of these places?
    fn is_unindexed_drop_at(&self, ops: &[SharedOp], members: &PlaceSet) -> bool
        requires few { length ops.now < 2 ^ 32 }
        ensures { MatchBool result
            ((place : ℕ) × (is_drop_at ops.now place ≡ true) × (has members.now place ≡ true))
            ((place : ℕ) → self.now.len ≤ place → place < length ops.now
            → is_drop_at ops.now place ≡ true → has members.now place ≡ false) }
    {
        for place in self.len..ops.len() as u32 {
            if ops[place as usize].body.is_drop() && members.has(place) {
                return true;
            }
        }
        false
    }

    /// Is a change at one of these places a drop? Takes 64 places of the indexed drops at a time,
    /// and each change that is not in the index yet.
    pub fn has_drop_at(&self, ops: &[SharedOp], members: &PlaceSet) -> bool
        requires few { length ops.now < 2 ^ 32 }
        requires keys { AreByKey ops.now self.now }
        ensures { result ≡ list_any (is_drop_at ops.now) members.now }
    {
        self.drops.intersects(members) || self.is_unindexed_drop_at(ops, members)
    }

    /// Adds the places under the key to a set: the indexed changes that give the key a value, and
    /// perhaps the next change. One look-up.
    fn insert_puts(&self, guess: usize, key: &Key, members: &mut PlaceSet) -> Result<(), NoMemory>
        ensures puts { OnOk result ((ops : List Op) (place : ℕ) → AreByKey ops self.now
            → place < self.now.len
            → has members.new place ≡ (has members.old place || of_key ops key.now place)) }
        ensures within { OnOk result ((ops : List Op) → AreByKey ops self.now
            → AreBelow (length ops) members.old → AreBelow (length ops) members.new) }
    {
        match self.find(guess, key) {
            Some(i) => members.insert_all(&self.keys[i].places),
            None => Ok(()),
        }
    }

    /// The places of the indexed changes that are drops or give one of the keys a value, and
    /// perhaps of the next change.
    fn drops_and_puts(&self, alloc: Global, pairs: &[(Key, Value)]) -> Result<PlaceSet, NoMemory>
        ensures found { IfOk result (λ found. (ops : List Op) (place : ℕ) → AreByKey ops self.now
            → place < self.now.len → has found place ≡ is_drop_or_gives ops pairs.now place) }
        ensures within { IfOk result (λ found. (ops : List Op) → AreByKey ops self.now
            → AreBelow (length ops) found) }
    {
        let mut found = self.drops.copy(alloc)?;
        for (at, pair) in pairs.iter().enumerate() {
            self.insert_puts(at, &pair.0, &mut found)?;
        }
        Ok(found)
    }

    /// Adds the places of the changes that are not in the index yet, of `count` in all.
    fn insert_unindexed(&self, count: u32, members: &mut PlaceSet) -> Result<(), NoMemory>
        ensures kept { OnOk result ((place : ℕ) → has members.old place ≡ true
            → has members.new place ≡ true) }
        ensures last { OnOk result ((place : ℕ) → self.now.len ≤ place → place < count
            → has members.new place ≡ true) }
        ensures within { OnOk result (AreBelow count members.old → AreBelow count members.new) }
    {
        for place in self.len..count {
            members.insert(place)?;
        }
        Ok(())
    }

    /// The places of the changes that may be at odds with a put of these pairs: drops, puts of one
    /// of its keys, and changes that are not in the index yet. One look-up a key.
    pub fn maybe_at_odds(
        &self,
        alloc: Global,
        count: u32,
        pairs: &[(Key, Value)],
    ) -> Result<PlaceSet, NoMemory>
        ensures found { IfOk result (λ found. (ops : List Op) (place : ℕ) → AreByKey ops self.now
            → place < count → is_drop_or_gives ops pairs.now place ≡ true
            → has found place ≡ true) }
        ensures within { IfOk result (λ found. (ops : List Op) → AreByKey ops self.now
            → length ops ≡ count → AreBelow count found) }
    {
        let mut found = self.drops_and_puts(alloc, pairs)?;
        self.insert_unindexed(count, &mut found)?;
        Ok(found)
    }
}
