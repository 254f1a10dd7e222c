//! The operations of a room so far, and whether an operation may come next.
#![tactic(auto)]

ghost use Rattle.std.specs.Prelude.{◌≡◌, ◌-◌, ◌<◌, ◌≤◌, ◌++◌, ◌∷◌, ◌||◌, [], ℕ, true, false, length, map, position, None, Some, IfSome, IfOk, IfErr, OnOk, OnErr, IsOk, Contains, slice_index};
ghost use Rattle.std.specs.Option.{option_copied, option_map_or};
ghost use Rattle.base_types.specs.Names.{is_site, same_name};
ghost use Rattle.base_types.specs.Vectors.{count_of, counts};
ghost use Rattle.rules.specs.Operations.{IsHistory, operation};
ghost use Rattle.rules.specs.Admission.{count_at_site, is_ahead, is_not_closed};
ghost use Rattle.rules.specs.steps.Histories.{causal_refusal};
ghost use Rattle.causal.specs.steps.Index.{at_number, places_of_site, has_fewer, lacks, lacks_beyond};

use base_types::{MAX_SITE, NoMemory, OpName, StateVector};
use rules::{Op, Refusal, SharedOp};
use std::alloc::Global;
use std::marker::Model;
use thiserror::Error;

/// Why an operation may not come next: the first variant that applies, in this order.
#[derive(Clone, Copy, Debug, PartialEq, Eq, Error)]
pub enum NotAdmitted {
    /// Its number is not its site's next one.
    #[error("the number is not the site's next one")]
    WrongSeq,
    /// Its vector does not count exactly the earlier operations of its own site.
    #[error("the vector counts other than the site's earlier operations")]
    OwnCount,
    /// Its vector counts an operation that is not in the history.
    #[error("the vector counts an operation that is not there")]
    Ahead,
    /// Its vector counts an operation, but not everything which that operation's vector counts.
    #[error("the vector counts an operation and not all that that one counts")]
    NotClosed,
}

impl From<NotAdmitted> for Refusal {
    ghost use Rattle.std.specs.Prelude.{◌≡◌};
    ghost use Rattle.causal.specs.steps.NotAdmitted.{refusal_of_cause};

    ghost from_gives = { λ fault refusal. refusal ≡ refusal_of_cause fault };

    fn from(fault: NotAdmitted) -> Refusal {
        match fault {
            NotAdmitted::WrongSeq => Refusal::WrongSeq,
            NotAdmitted::OwnCount => Refusal::OwnCount,
            NotAdmitted::Ahead => Refusal::Ahead,
            NotAdmitted::NotClosed => Refusal::NotClosed,
        }
    }
}

/// The operations of a room, in the order in which they were added. A look-up by name takes
/// constant time.
#[derive(Drop)]
pub struct Past {
    alloc: Global,
    operations: Vec<SharedOp>,
    /// For each site, from site 1 on, the places of its operations, by their numbers. Sites behind
    /// the last list have none yet.
    places: Vec<Vec<usize>>,
}

impl Model for Past {
    ghost use Rattle.std.specs.Prelude.{◌-◌, map, min, vec_capacity, vec_len};
    ghost use Rattle.causal.specs.steps.Past.{PastState};
    ghost use Rattle.causal.specs.steps.Index.{IsIndex};

    ghost Value = { PastState };

    ghost view = { λ p. record {
      history = p.operations.items;
      reserve = map
          (λ list. min (vec_capacity p.operations - vec_len p.operations)
          (vec_capacity list - vec_len list))
          p.places.items;
    } };

    ghost invariant = { λ p. IsIndex p.operations.items (map (λ list. list.items) p.places.items) };
}

/// The element at a number that counts from 1, if there is one.
fn at_number<T>(elements: &[T], number: u32) -> Option<&T>
    ensures { option_copied result ≡ at_number elements.now number }
{
    elements.get((number as usize).checked_sub(1)?)
}

/// The places of a site's operations, by their numbers.
fn places_of_site(lists: &[Vec<usize>], site: u32) -> &[usize]
    ensures { result.now ≡ places_of_site (map (λ list. list.items) lists.now) site }
{
    match at_number(lists, site) {
        Some(places) => places,
        None => &[],
    }
}

/// The count of a site in a vector. Where the vector has all sites up to this one, its pair stands
/// at the site's number. Else a binary search.
fn count_in(seen: &StateVector, site: u32) -> u32
    ensures { result ≡ count_of seen.now site }
{
    match at_number(seen.pairs(), site) {
        Some(pair) if pair.0 == site => pair.1,
        _ => seen.count(site),
    }
}

/// Does the operation of a name, if there is one, count that of a pair, or is the pair the name?
fn knows(name: (u32, u32), op: Option<&Op>, pair: (u32, u32)) -> bool
    ensures { result ≡ (option_map_or (λ op. counts op.seen pair) (option_copied op.entry) false
        || same_name name pair) }
{
    match op {
        Some(op) => pair.1 <= count_in(&op.seen, pair.0) || name == pair,
        None => name == pair,
    }
}

impl Past {
    ghost use Rattle.causal.specs.steps.NotAdmitted.{refusal_of_cause};

    /// An empty history, without an allocation. Always `Ok`.
    pub fn new(alloc: Global) -> Result<Past, NoMemory>
        ensures certain { IsOk result }
        ensures empty { IfOk result (λ past. past.history ≡ []) }
    {
        Ok(Past {
            alloc,
            operations: Vec::new(alloc),
            places: Vec::new(alloc),
        })
    }

    /// The number of a site's operations, 0 if it has none.
    pub fn count(&self, site: u32) -> u32
        ensures count { result ≡ count_at_site self.now.history site }
        ensures history { IsHistory self.now.history }
    {
        places_of_site(&self.places, site).len() as u32
    }

    /// The place of the operation of a site and a number.
    fn place(&self, site: u32, seq: u32) -> Option<usize>
        ensures { result ≡ position (λ op. same_name op.name (site, seq)) self.now.history }
    {
        at_number(places_of_site(&self.places, site), seq).copied()
    }

    /// The operation of a site and a number.
    fn operation(&self, site: u32, seq: u32) -> Option<&Op>
        ensures { option_copied result ≡ operation self.now.history (site, seq) }
    {
        let op = self.operations.get(self.place(site, seq)?)?;
        Some(op)
    }

    /// Is some pair's count above the number of its site's operations?
    fn has_fewer(&self, pairs: &[(u32, u32)]) -> bool
        ensures { result ≡ has_fewer self.now.history pairs.now }
    {
        pairs.iter().any(|pair| self.count(pair.0) < pair.1)
    }

    /// Does the vector count an operation that is not there?
    fn is_ahead(&self, seen: &StateVector) -> bool
        ensures { result ≡ is_ahead self.now.history seen.now }
    {
        // What stays true of a past: the numbers of a site's operations have no gap.
        let _ = &self.places;
        self.has_fewer(seen.pairs())
    }

    /// Does the vector lack something that the operation of this pair counts? Goes along both
    /// vectors once.
    fn lacks_one(&self, seen: &StateVector, pair: (u32, u32)) -> bool
        ensures { result ≡ lacks self.now.history seen.now pair }
    {
        match self.operation(pair.0, pair.1) {
            Some(op) => !seen.covers(&op.seen),
            None => false,
        }
    }

    /// Of these pairs the one whose operation was added last. Looks up each of them.
    fn latest(&self, pairs: &[(u32, u32)]) -> Option<(u32, u32)>
        ensures { IfSome result (Contains pairs.now) }
    {
        pairs
            .iter()
            .copied()
            .max_by_key(|pair| self.place(pair.0, pair.1))
    }

    /// Does the vector lack something that the operation of one of these pairs counts, of those
    /// that are neither of two pairs and that their operations don't count? Goes along two vectors
    /// for each of those, and looks each of the others up in two vectors.
    fn lacks_beyond(
        &self,
        seen: &StateVector,
        own: (u32, u32),
        latest: (u32, u32),
        pairs: &[(u32, u32)],
    ) -> bool
        ensures { result ≡ lacks_beyond self.now.history seen.now own latest pairs.now }
    {
        let own_op = self.operation(own.0, own.1);
        let latest_op = self.operation(latest.0, latest.1);
        pairs.iter().any(|pair| !knows(own, own_op, *pair)
            && !knows(latest, latest_op, *pair)
            && self.lacks_one(seen, *pair))
    }

    /// Does the vector lack something that the operation of one of these pairs counts, where it is
    /// looked up for two of them first?
    fn lacks_some(
        &self,
        seen: &StateVector,
        own: (u32, u32),
        latest: (u32, u32),
        pairs: &[(u32, u32)],
    ) -> bool
        ensures { result ≡ (lacks self.now.history seen.now own
            || (lacks self.now.history seen.now latest
            || lacks_beyond self.now.history seen.now own latest pairs.now)) }
    {
        self.lacks_one(seen, own)
            || (latest != own && self.lacks_one(seen, latest))
            || self.lacks_beyond(seen, own, latest, pairs)
    }

    /// Does the vector lack something that an operation which it counts counts? The site is that of
    /// the vector's author. Goes along two vectors for its last operation, for the latest of all
    /// that the vector counts if that is another one, and then only for each site whose last
    /// operation neither of these two counts.
    fn is_not_closed(&self, seen: &StateVector, site: u32) -> bool
        requires { is_ahead self.now.history seen.now ≡ false }
        ensures { result ≡ is_not_closed self.now.history seen.now }
    {
        // What stays true of a past: an operation counts all that the operations count which it
        // counts, and the last operation of a site all that the site's earlier ones count.
        let _ = &self.places;
        let own = (site, seen.count(site));
        let latest = self.latest(seen.pairs()).unwrap_or(own);
        self.lacks_some(seen, own, latest, seen.pairs())
    }

    /// Tells whether an operation of this name and this vector may come next (Sun and Chen, 2002).
    ///
    /// Takes time linear in the vector. It compares whole vectors again only for some sites: those
    /// where neither the author's last operation nor the latest counted operation counts as much.
    /// The time does not depend on the length of the history.
    ///
    /// # Errors
    ///
    /// `WrongSeq`, `OwnCount`, `Ahead` or `NotClosed`, the first that applies in this order.
    #[tactic(auto, unfolding(rules::specs::steps::Histories::causal_refusal))]
    pub fn admit(&self, name: OpName, seen: &StateVector) -> Result<(), NotAdmitted>
        ensures admitted { OnOk result (causal_refusal self.now.history name seen.now ≡ None) }
        ensures refusal { IfErr result
            (λ fault. causal_refusal self.now.history name seen.now ≡ Some (refusal_of_cause fault)) }
    {
        let earlier = name.seq() - 1;
        if self.count(name.site()) != earlier {
            return Err(NotAdmitted::WrongSeq);
        }
        if seen.count(name.site()) != earlier {
            return Err(NotAdmitted::OwnCount);
        }
        if self.is_ahead(seen) {
            return Err(NotAdmitted::Ahead);
        }
        if self.is_not_closed(seen, name.site()) {
            return Err(NotAdmitted::NotClosed);
        }
        Ok(())
    }

    /// Reserves memory for one more operation of a site, so that `add` can't fail. Does nothing for
    /// a site that is not from 1 to 256. The history stays as it is. Memory that was reserved
    /// before stays reserved.
    ///
    /// # Errors
    ///
    /// `NoMemory` if an allocation failed.
    pub fn reserve(&mut self, site: u32) -> Result<(), NoMemory>
        ensures history { self.new.history ≡ self.old.history }
        ensures kept { (k : ℕ) → slice_index self.old.reserve k ≤ slice_index self.new.reserve k }
        ensures ready { OnOk result
            (is_site site ≡ true → 0 < slice_index self.new.reserve (site - 1)) }
        ensures outside { is_site site ≡ false → IsOk result }
    {
        if site < 1 || site > MAX_SITE {
            return Ok(());
        }
        self.reach(site)?;
        self.reserve_listed(site)
    }

    /// Reserves memory for one more operation of a site that has a list.
    ///
    /// # Errors
    ///
    /// `NoMemory` if an allocation failed.
    fn reserve_listed(&mut self, site: u32) -> Result<(), NoMemory>
        requires { (1 ≤ site) × (site ≤ length self.old.reserve) }
        ensures history { self.new.history ≡ self.old.history }
        ensures kept { (k : ℕ) → slice_index self.old.reserve k ≤ slice_index self.new.reserve k }
        ensures ready { OnOk result (0 < slice_index self.new.reserve (site - 1)) }
        ensures listed { length self.new.reserve ≡ length self.old.reserve }
        ensures certain { 0 < slice_index self.old.reserve (site - 1) → IsOk result }
    {
        self.operations.reserve(1)?;
        self.places[site as usize - 1].reserve(1)?;
        Ok(())
    }

    /// Appends lists without places until this site has one. Does nothing if it has one.
    ///
    /// # Errors
    ///
    /// `NoMemory` if an allocation failed.
    fn reach(&mut self, site: u32) -> Result<(), NoMemory>
        ensures history { self.new.history ≡ self.old.history }
        ensures kept { (k : ℕ) → slice_index self.old.reserve k ≤ slice_index self.new.reserve k }
        ensures reached { OnOk result (site ≤ length self.new.reserve) }
        ensures certain { site ≤ length self.old.reserve → IsOk result }
    {
        let count = site as usize;
        if self.places.len() < count {
            self.places.reserve(count - self.places.len())?;
            while self.places.len() < count {
                self.places.push_reserved(Vec::new(self.alloc));
            }
        }
        Ok(())
    }

    /// Adds an operation that is admitted.
    ///
    /// # Errors
    ///
    /// `NoMemory` if no memory was reserved for it and an allocation failed. The history stays as
    /// it is.
    pub fn add(&mut self, op: SharedOp) -> Result<(), NoMemory>
        requires admitted { causal_refusal self.old.history op.name op.seen ≡ None }
        ensures ok { OnOk result (self.new.history ≡ self.old.history ++ op ∷ []) }
        ensures err { OnErr result (self.new.history ≡ self.old.history) }
        ensures certain { 0 < slice_index self.old.reserve (op.name.0 - 1) → IsOk result }
    {
        self.reach(op.name.site())?;
        self.add_listed(op)
    }

    /// Adds an operation that is admitted, of a site that has a list.
    ///
    /// # Errors
    ///
    /// `NoMemory` if no memory was reserved for it and an allocation failed. The history stays as
    /// it is.
    fn add_listed(&mut self, op: SharedOp) -> Result<(), NoMemory>
        requires admitted { causal_refusal self.old.history op.name op.seen ≡ None }
        requires listed { op.name.0 ≤ length self.old.reserve }
        ensures ok { OnOk result (self.new.history ≡ self.old.history ++ op ∷ []) }
        ensures err { OnErr result (self.new.history ≡ self.old.history) }
        ensures certain { 0 < slice_index self.old.reserve (op.name.0 - 1) → IsOk result }
    {
        self.reserve_listed(op.name.site())?;
        self.add_reserved(op);
        Ok(())
    }

    /// Adds an operation that is admitted, of a site that has a list. There is memory for it.
    fn add_reserved(&mut self, op: SharedOp)
        requires admitted { causal_refusal self.old.history op.name op.seen ≡ None }
        requires listed { op.name.0 ≤ length self.old.reserve }
        requires ready { 0 < slice_index self.old.reserve (op.name.0 - 1) }
        ensures added { self.new.history ≡ self.old.history ++ op ∷ [] }
    {
        let place = self.operations.len();
        // That the number and the vector are in range is part of what stays true of a past.
        let _ = op.name.seq();
        let _ = op.seen.pairs();
        let site = op.name.site() as usize;
        self.places[site - 1].push_reserved(place);
        self.operations.push_reserved(op);
    }
}
