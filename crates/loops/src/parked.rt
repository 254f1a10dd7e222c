//! The lines that wait for news in rooms.

ghost use Rattle.std.specs.Prelude.{◌≡◌, ◌<◌, ◌≤◌, ◌==◌, ◌↔◌, [], ◌∷◌, ◌++◌, IfOk, IfSome};
ghost use Rattle.std.specs.Prelude.{IsFalse, IsTrue, Some, not, slice_get, true, vec_len};
ghost use Rattle.loops.specs.steps.Places.{GoesTo};
ghost use Rattle.std.specs.List.{filter};

use std::alloc::{AllocError, Global};

/// For each place the keys of the lines that wait for news in its room.
#[derive(Drop)]
pub(crate) struct Parked {
    alloc: Global,
    places: Vec<Vec<usize>>,
}

impl Parked {
    /// No line waits.
    pub(crate) fn new(alloc: Global, places: usize) -> Result<Parked, AllocError>
        ensures { IfOk result (λ parked. vec_len parked.places ≡ places) }
    {
        let mut all = Vec::with_capacity(alloc, places)?;
        for _ in 0..places {
            all.push(Vec::new(alloc))?;
        }
        Ok(Parked { alloc, places: all })
    }

    /// The line waits for news at the place, which it does not do yet. Returns false if an
    /// allocation failed or there is no such place.
    pub(crate) fn park(&mut self, place: usize, key: usize) -> bool
        ensures parked { IsTrue result → place < vec_len self.old.places
            × GoesTo place (λ keys. keys ++ key ∷ []) self.old.places.items self.new.places.items }
        ensures none { vec_len self.old.places ≤ place → IsFalse result }
    {
        if place >= self.places.len() {
            return false;
        }
        let mut keys = self.take(place);
        let is_parked = keys.push(key).is_ok();
        self.places[place] = keys;
        is_parked
    }

    /// The line waits for news at the place no more.
    pub(crate) fn leave(&mut self, place: usize, key: usize)
        ensures { GoesTo place (filter (λ other. not (other == key))) self.old.places.items
            self.new.places.items }
    {
        if place >= self.places.len() {
            return;
        }
        let mut keys = self.take(place);
        remove_key(&mut keys, key);
        self.places[place] = keys;
    }

    /// Returns whether no line waits for news at the place.
    pub(crate) fn is_empty(&self, place: usize) -> bool
        ensures some { IfSome (slice_get self.now.places.items place) (λ keys.
            (result ≡ true) ↔ (keys.items ≡ [])) }
        ensures none { vec_len self.now.places ≤ place → result ≡ true }
    {
        match self.places.get(place) {
            Some(keys) => keys.is_empty(),
            None => true,
        }
    }

    /// Takes the lines that wait for news at the place. None waits there any more.
    pub(crate) fn take(&mut self, place: usize) -> Vec<usize>
        ensures taken { place < vec_len self.old.places →
            slice_get self.old.places.items place ≡ Some result }
        ensures none { vec_len self.old.places ≤ place → result.items ≡ [] }
        ensures places { GoesTo place (λ _. []) self.old.places.items self.new.places.items }
    {
        let empty = Vec::new(self.alloc);
        if place >= self.places.len() {
            return empty;
        }
        std::mem::replace(&mut self.places[place], empty)
    }
}

/// Takes a key out.
fn remove_key(keys: &mut Vec<usize>, key: usize)
    ensures { keys.new.items ≡ filter (λ other. not (other == key)) keys.old.items }
{
    keys.retain(|other| *other != key);
}
