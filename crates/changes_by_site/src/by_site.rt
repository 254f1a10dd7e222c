//! The places of changes by their sites.

ghost use Rattle.std.specs.Prelude.{◌≡◌, ℕ, ◌+◌, ◌<◌, ◌≤◌, ◌^◌, [], ◌∷◌, filter, length, nat_le, IfOk, OnOk, OnErr};
ghost use Rattle.std.specs.List.{list_all};
ghost use Rattle.base_types.specs.Vectors.{count_of, counts};
ghost use Rattle.places.specs.steps.PlaceSet.{places, with_places};
ghost use Rattle.places.specs.steps.Changes.{at, places_counted};
ghost use Rattle.changes_by_site.specs.steps.Indexes.{counted_of, changes_of_site_at, is_counted, known_of, last_number, with_counted, with_new_site, with_change_of_site, with_change_at, AreBySite, AreInOrder, IsRising};
ghost use Rattle.places.specs.steps.Lookups.{IsPlaceOf};

use crate::Known;
use base_types::{NoMemory, OpName, StateVector};
use places::PlaceSet;
use rules::SharedOp;
use std::alloc::Global;
use std::marker::Model;

/// The changes of one site on an object.
#[derive(Drop)]
struct SiteChanges {
    site: u32,
    /// The number of each and its place, in order of arrival.
    changes: Vec<(u32, u32)>,
    places: PlaceSet,
}

impl Model for SiteChanges {
    ghost use Rattle.changes_by_site.specs.steps.Indexes.{OfSite};

    ghost Value = { OfSite };

    ghost view = { λ of. record {
      site = of.site;
      changes = of.changes.items;
      places = of.places;
    } };
}

impl SiteChanges {
    /// The site with its first change.
    fn of_one(alloc: Global, name: OpName, place: u32) -> Result<SiteChanges, NoMemory>
        ensures { IfOk result (λ of. of
            ≡ record { site = name.0; changes = (name.1, place) ∷ []; places = place ∷ [] }) }
    {
        let mut changes = Vec::new(alloc);
        changes.push((name.seq(), place))?;
        let places = PlaceSet::from_places(alloc, &[place])?;
        Ok(SiteChanges {
            site: name.site(),
            changes,
            places,
        })
    }

    /// Adds the next change. `NoMemory` leaves all as it is.
    fn add(&mut self, number: u32, place: u32) -> Result<(), NoMemory>
        ensures ok { OnOk result (self.new ≡ with_change_of_site number place self.old) }
        ensures err { OnErr result (self.new ≡ self.old) }
    {
        self.changes.reserve(1)?;
        self.places.insert(place)?;
        self.changes.push_reserved((number, place));
        Ok(())
    }

    /// Does a vector count the last change, and so all? True if there is none.
    fn is_counted(&self, seen: &StateVector) -> bool
        ensures { result ≡ nat_le (last_number self.now) (count_of seen.now self.now.site) }
    {
        match self.changes.last() {
            Some((number, _)) => *number <= seen.count(self.site),
            None => true,
        }
    }

    /// Adds the places of the changes that a vector counts to a set: all, or those before the first
    /// that it doesn't count.
    fn insert_counted(&self, seen: &StateVector, known: &mut PlaceSet) -> Result<(), NoMemory>
        requires { IsRising self.now }
        ensures { OnOk result (known.new ≡ with_places known.old (counted_of seen.now self.now)) }
    {
        let number = seen.count(self.site);
        let counted = self.changes.partition_point(|change| change.0 <= number);
        if counted == self.changes.len() {
            return known.insert_all(&self.places);
        }
        if counted == 0 {
            return Ok(());
        }
        known.insert_below(&self.places, self.changes[counted].1)
    }
}

/// Does a vector count each of these changes?
fn are_counted(ops: &[SharedOp], seen: &StateVector) -> bool
    ensures { result ≡ list_all (λ op. counts seen.now op.name) ops.now }
{
    ops.iter().all(|op| seen.has(op.name))
}

/// The first `len` changes of an object, by site.
#[derive(Drop)]
pub struct BySite {
    len: u32,
    sites: Vec<SiteChanges>,
}

impl Model for BySite {
    ghost use Rattle.changes_by_site.specs.steps.Indexes.{SiteIndex};

    ghost Value = { SiteIndex };

    ghost view = { λ index. record { len = index.len; sites = index.sites.items } };
}

impl BySite {
    pub fn new(alloc: Global) -> BySite
        ensures { result ≡ record { len = 0; sites = [] } }
    {
        BySite {
            len: 0,
            sites: Vec::new(alloc),
        }
    }

    /// The place of the site in the index, if it is there.
    fn find(&self, site: u32) -> Option<usize>
        ensures { let count = length self.now.sites
            in IsPlaceOf (λ i. (changes_of_site_at self.now.sites i).site) count site result }
    {
        self.sites.iter().position(|changes| changes.site == site)
    }

    /// Adds the next change under the site at this place of the index.
    fn grow(&mut self, i: usize, number: u32) -> Result<(), NoMemory>
        requires there { i < length self.old.sites }
        requires few { self.old.len + 1 < 2 ^ 32 }
        ensures ok { OnOk result (self.new ≡ with_change_at i number self.old) }
        ensures err { OnErr result (self.new ≡ self.old) }
    {
        self.sites[i].add(number, self.len)?;
        self.len += 1;
        Ok(())
    }

    /// Adds the next change, the first of its site.
    fn begin(&mut self, alloc: Global, name: OpName) -> Result<(), NoMemory>
        requires few { self.old.len + 1 < 2 ^ 32 }
        ensures ok { OnOk result (self.new ≡ with_new_site name self.old) }
        ensures err { OnErr result (self.new ≡ self.old) }
    {
        let changes = SiteChanges::of_one(alloc, name, self.len)?;
        self.sites.push(changes)?;
        self.len += 1;
        Ok(())
    }

    /// Adds the next change.
    fn add(&mut self, alloc: Global, ops: &[SharedOp]) -> Result<(), NoMemory>
        requires more { self.old.len < length ops.now }
        requires few { length ops.now < 2 ^ 32 }
        requires sites { AreBySite ops.now self.old }
        ensures sites { AreBySite ops.now self.new }
        ensures len { OnOk result (self.new.len ≡ self.old.len + 1) }
    {
        let name = ops[self.len as usize].name;
        match self.find(name.site()) {
            Some(i) => self.grow(i, name.seq()),
            None => self.begin(alloc, name),
        }
    }

    /// Adds the changes that are not in the index yet. After `NoMemory` some of them are added.
    pub fn catch_up(&mut self, alloc: Global, ops: &[SharedOp]) -> Result<(), NoMemory>
        requires few { length ops.now < 2 ^ 32 }
        requires sites { AreBySite ops.now self.old }
        ensures { AreBySite ops.now self.new }
    {
        while (self.len as usize) < ops.len() {
            self.add(alloc, ops)?;
        }
        Ok(())
    }

    /// The places of the indexed changes that a vector counts. One look-up a site.
    fn counted_places(&self, alloc: Global, seen: &StateVector) -> Result<PlaceSet, NoMemory>
        requires { (i : ℕ) → i < length self.now.sites →
            IsRising (changes_of_site_at self.now.sites i) }
        ensures { IfOk result (λ counted. counted ≡ with_counted seen.now [] self.now.sites) }
    {
        let mut counted = PlaceSet::empty(alloc);
        for changes in &self.sites {
            changes.insert_counted(seen, &mut counted)?;
        }
        Ok(counted)
    }

    /// Does a vector count the last indexed change of each site?
    fn are_sites_counted(&self, seen: &StateVector) -> bool
        ensures { result ≡ list_all (is_counted seen.now) self.now.sites }
    {
        self.sites.iter().all(|changes| changes.is_counted(seen))
    }

    /// Does a vector count all changes? One look-up a site, and for each change that is not indexed.
    fn are_all_counted(&self, ops: &[SharedOp], seen: &StateVector) -> bool
        requires sites { AreBySite ops.now self.now }
        requires order { AreInOrder ops.now }
        ensures { result ≡ list_all (λ op. counts seen.now op.name) ops.now }
    {
        self.are_sites_counted(seen) && are_counted(&ops[self.len as usize..], seen)
    }

    /// Which of the changes a vector counts. One look-up a site, and for each change that is not
    /// indexed. Where it counts all, that takes no memory.
    ///
    /// # Errors
    ///
    /// `NoMemory` if an allocation failed.
    pub fn known(
        &self,
        alloc: Global,
        ops: &[SharedOp],
        seen: &StateVector,
    ) -> Result<Known, NoMemory>
        requires few { length ops.now < 2 ^ 32 }
        requires sites { AreBySite ops.now self.now }
        requires order { AreInOrder ops.now }
        ensures { IfOk result (λ known.
            known_of known (length ops.now) ≡ places_counted ops.now seen.now) }
    {
        if self.are_all_counted(ops, seen) {
            return Ok(Known::All);
        }
        let places = self.known_places(alloc, ops, seen)?;
        Ok(Known::Places(places))
    }

    /// The places of the changes that a vector counts: the indexed ones by site, then the others
    /// one by one.
    fn known_places(
        &self,
        alloc: Global,
        ops: &[SharedOp],
        seen: &StateVector,
    ) -> Result<PlaceSet, NoMemory>
        requires few { length ops.now < 2 ^ 32 }
        requires sites { AreBySite ops.now self.now }
        requires order { AreInOrder ops.now }
        ensures { IfOk result (λ known. known ≡ places_counted ops.now seen.now) }
    {
        let mut known = self.counted_places(alloc, seen)?;
        self.insert_unindexed(ops, seen, &mut known)?;
        Ok(known)
    }

    /// Adds the places of the changes that a vector counts and that are not in the index to those of
    /// the indexed ones.
    fn insert_unindexed(
        &self,
        ops: &[SharedOp],
        seen: &StateVector,
        known: &mut PlaceSet,
    ) -> Result<(), NoMemory>
        requires few { length ops.now < 2 ^ 32 }
        requires len { self.now.len ≤ length ops.now }
        requires indexed { known.old ≡ filter (λ place. counts seen.now (at ops.now place).name)
            (places self.now.len) }
        ensures { OnOk result (known.new ≡ places_counted ops.now seen.now) }
    {
        for place in self.len..ops.len() as u32 {
            if seen.has(ops[place as usize].name) {
                known.insert(place)?;
            }
        }
        Ok(())
    }
}
