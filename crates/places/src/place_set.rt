//! Sets of places.

ghost use Rattle.std.specs.Prelude.{◌≡◌, [], length, not, if◌then◌else◌, IfOk, OnOk, OnErr, filter};
ghost use Rattle.std.specs.List.{list_any};
ghost use Rattle.std.specs.List.Sorted.{IsStrictlyIncreasing};
ghost use Rattle.places.specs.steps.PlaceSet.{has, is_within, with_place, places, set_of, with_places, IsLowest};

use crate::words::{
    Words, copy, count_bits, difference, first_places, has_bit, intersects, is_within, join,
    join_below, list, list_common, lowest_place, set_bit,
};
use base_types::NoMemory;
use std::alloc::Global;
use std::marker::Model;

/// A set of places. Contracts see the list of its places in increasing order.
#[derive(Debug, Drop)]
pub struct PlaceSet {
    /// Place p is in the set if bit p % 64 of word p / 64 is 1.
    words: Words,
}

impl Model for PlaceSet {
    ghost use Rattle.std.specs.Prelude.{◌≤◌, ◌^◌, List, ℕ, length};
    ghost use Rattle.places.specs.steps.Words.{places_in};

    ghost Value = { List ℕ };

    ghost view = { λ members. places_in members.words.items };

    ghost invariant = { λ members. length members.words.items ≤ 2 ^ 26 };
}

impl PlaceSet {
    /// The empty set.
    #[tactic(auto, using(crate::proofs::WordPlaces::places_in_none))]
    pub fn empty(alloc: Global) -> PlaceSet
        ensures { result ≡ [] }
    {
        PlaceSet {
            words: Words::new(alloc),
        }
    }

    /// The set of the first `len` places.
    ///
    /// # Errors
    ///
    /// `NoMemory` if an allocation failed.
    pub fn first_places(alloc: Global, len: u32) -> Result<PlaceSet, NoMemory>
        ensures { IfOk result (λ members. members ≡ places len) }
    {
        let words = first_places(alloc, len)?;
        Ok(PlaceSet { words })
    }

    /// The set of these places, in any order and with repeats.
    ///
    /// # Errors
    ///
    /// `NoMemory` if an allocation failed.
    pub fn from_places(alloc: Global, places: &[u32]) -> Result<PlaceSet, NoMemory>
        ensures { IfOk result (λ members. members ≡ set_of places.now) }
    {
        let mut members = PlaceSet::empty(alloc);
        for place in places {
            members.insert(*place)?;
        }
        Ok(members)
    }

    /// Is the place in the set? Constant time.
    pub fn has(&self, place: u32) -> bool
        ensures { result ≡ has self.now place }
    {
        has_bit(&self.words, place)
    }

    /// The number of places.
    pub fn count(&self) -> usize
        ensures { result ≡ length self.now }
    {
        count_bits(&self.words)
    }

    /// That the places rise. It runs nothing.
    #[tactic(auto, using(crate::proofs::WordPlaces::places_in_rises))]
    pub fn rises(&self)
        ensures { IsStrictlyIncreasing self.now }
    {
        let _ = &self.words;
    }

    /// The places in increasing order. Linear in their number and in the greatest place over 64.
    ///
    /// # Errors
    ///
    /// `NoMemory` if an allocation failed.
    pub fn list(&self, alloc: Global) -> Result<Vec<u32>, NoMemory>
        ensures { IfOk result (λ list. list.items ≡ self.now) }
    {
        list(alloc, &self.words)
    }

    /// The lowest place, or `None` if the set is empty.
    pub fn lowest_place(&self) -> Option<u32>
        ensures { IsLowest result self.now }
    {
        lowest_place(&self.words)
    }

    /// Adds a place.
    ///
    /// # Errors
    ///
    /// `NoMemory` if an allocation failed. The set stays as it is.
    pub fn insert(&mut self, place: u32) -> Result<(), NoMemory>
        ensures ok { OnOk result (self.new ≡ with_place place self.old) }
        ensures err { OnErr result (self.new ≡ self.old) }
    {
        set_bit(&mut self.words, place)
    }

    /// Adds a place if `is_in` is true.
    ///
    /// # Errors
    ///
    /// `NoMemory` if an allocation failed. The set stays as it is.
    pub fn insert_if(&mut self, place: u32, is_in: bool) -> Result<(), NoMemory>
        ensures ok { OnOk result (self.new
            ≡ (if is_in then with_place place self.old else self.old)) }
        ensures err { OnErr result (self.new ≡ self.old) }
    {
        if is_in {
            self.insert(place)?;
        }
        Ok(())
    }

    /// Adds the places of another set. Takes 64 places at a time.
    ///
    /// # Errors
    ///
    /// `NoMemory` if an allocation failed. The set stays as it is.
    pub fn insert_all(&mut self, other: &PlaceSet) -> Result<(), NoMemory>
        ensures ok { OnOk result (self.new ≡ with_places self.old other.now) }
        ensures err { OnErr result (self.new ≡ self.old) }
    {
        join(&mut self.words, &other.words)
    }

    /// Adds the places of another set that are below a bound. Takes 64 places at a time.
    ///
    /// # Errors
    ///
    /// `NoMemory` if an allocation failed. Some of the places may be added then.
    pub fn insert_below(&mut self, other: &PlaceSet, bound: u32) -> Result<(), NoMemory>
        ensures { OnOk result (self.new
            ≡ with_places self.old (filter (has (places bound)) other.now)) }
    {
        join_below(&mut self.words, &other.words, bound)
    }

    /// Returns an equal copy.
    ///
    /// # Errors
    ///
    /// `NoMemory` if an allocation failed.
    pub fn copy(&self, alloc: Global) -> Result<PlaceSet, NoMemory>
        ensures { IfOk result (λ members. members ≡ self.now) }
    {
        let words = copy(alloc, &self.words)?;
        Ok(PlaceSet { words })
    }

    /// Is each of these places in the other set?
    pub fn is_subset(&self, other: &PlaceSet) -> bool
        ensures { result ≡ is_within self.now other.now }
    {
        is_within(&self.words, &other.words)
    }

    /// Is one of these places in the other set?
    pub fn intersects(&self, other: &PlaceSet) -> bool
        ensures { result ≡ list_any (has other.now) self.now }
    {
        intersects(&self.words, &other.words)
    }

    /// Fills a list with the places that are in both sets, in increasing order. What the list held
    /// before goes. Linear in these places and in the greatest place over 64.
    ///
    /// # Errors
    ///
    /// `NoMemory` if an allocation failed.
    pub fn list_common(&self, other: &PlaceSet, list: &mut Vec<u32>) -> Result<(), NoMemory>
        ensures { OnOk result (list.new.items ≡ filter (has other.now) self.now) }
    {
        list_common(&self.words, &other.words, list)
    }

    /// The places of this set that are not in the other. Takes 64 places at a time.
    ///
    /// # Errors
    ///
    /// `NoMemory` if an allocation failed.
    pub fn without(&self, alloc: Global, other: &PlaceSet) -> Result<PlaceSet, NoMemory>
        ensures { IfOk result (λ members. members
            ≡ filter (λ place. not (has other.now place)) self.now) }
    {
        let words = difference(alloc, &self.words, &other.words)?;
        Ok(PlaceSet { words })
    }
}
