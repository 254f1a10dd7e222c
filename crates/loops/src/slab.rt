//! Values at keys. The crate `slab` would not do: its slab can be let go only where its values can
//! be dropped, and a line cannot. Here `into_values` gives all of them back.

ghost use Rattle.std.specs.Prelude.{◌≡◌, ◌<◌, ◌≤◌, [], ◌↔◌, All, IsTrue, None, Some, slice_get};
ghost use Rattle.std.specs.Prelude.{slice_set, vec_len};

use std::alloc::Global;

/// Values, each at a key of its own. It cannot be dropped if its values cannot: each is taken out.
pub(crate) struct Slab<T> {
    values: Vec<Option<T>>,
    /// Keys at which no value stands.
    free: Vec<usize>,
}

impl<T> Slab<T> {
    /// No values.
    pub(crate) fn new(alloc: Global) -> Slab<T>
        ensures { result.values.items ≡ [] }
    {
        Slab {
            values: Vec::new(alloc),
            free: Vec::new(alloc),
        }
    }

    /// Returns whether there are no values.
    pub(crate) fn is_empty(&self) -> bool
        ensures { IsTrue result ↔ All (λ value. value ≡ None) self.now.values.items }
    {
        self.values.iter().all(|value| value.is_none())
    }

    /// A number above all keys.
    pub(crate) fn end_of_keys(&self) -> usize
        ensures { result ≡ vec_len self.now.values }
    {
        self.values.len()
    }

    /// A key at which no value stands. `None` if an allocation failed.
    pub(crate) fn free_key(&mut self) -> Option<usize> {
        if let Some(key) = self.free.pop() {
            return Some(key);
        }
        let key = self.values.len();
        if self.values.reserve(1).is_err() {
            return None;
        }
        self.values.push_reserved(None);
        Some(key)
    }

    /// No value stands at the key any more.
    pub(crate) fn give_key(&mut self, key: usize)
        ensures { self.new.values ≡ self.old.values }
    {
        let _ = self.free.push(key);
    }

    /// Puts a value at a key. Returns the value that stood there, or this one if there is no such
    /// key.
    pub(crate) fn put(&mut self, key: usize, value: T) -> Option<T>
        ensures put { key < vec_len self.old.values →
            (self.new.values.items ≡ slice_set self.old.values.items key (Some value))
            × (slice_get self.old.values.items key ≡ Some result) }
        ensures back { vec_len self.old.values ≤ key →
            (self.new.values.items ≡ self.old.values.items) × (result ≡ Some value) }
    {
        if key < self.values.len() {
            std::mem::replace(&mut self.values[key], Some(value))
        } else {
            Some(value)
        }
    }

    /// The value at a key.
    pub(crate) fn get_mut(&mut self, key: usize) -> Option<&mut T> {
        match self.values.get_mut(key) {
            Some(value) => value.as_mut(),
            None => None,
        }
    }

    /// Takes the value at a key out.
    pub(crate) fn take(&mut self, key: usize) -> Option<T>
        ensures taken { key < vec_len self.old.values →
            (self.new.values.items ≡ slice_set self.old.values.items key None)
            × (slice_get self.old.values.items key ≡ Some result) }
        ensures none { vec_len self.old.values ≤ key →
            (self.new.values.items ≡ self.old.values.items) × (result ≡ None) }
    {
        if key < self.values.len() {
            self.values[key].take()
        } else {
            None
        }
    }

    /// What stands at the keys.
    pub(crate) fn into_values(self) -> Vec<Option<T>>
        ensures { result ≡ self.values }
    {
        let Slab { values, free: _ } = self;
        values
    }
}
