//! What is remembered for one tick, or for two.

use base_types::NoMemory;
use indexmap::IndexMap;
use std::alloc::Global;
use std::hash::Hash;

/// Values by keys. Each is forgotten at the second tick after it was added.
#[derive(Drop)]
pub(crate) struct Recent<K: Eq + Hash, V> {
    alloc: Global,
    /// What was added since the last tick.
    new: IndexMap<K, V>,
    /// What was added before that.
    old: IndexMap<K, V>,
}

impl<K: Eq + Hash + Drop, V: Drop> Recent<K, V> {
    /// Nothing.
    pub(crate) fn none(alloc: Global) -> Recent<K, V> {
        Recent {
            alloc,
            new: IndexMap::new(alloc),
            old: IndexMap::new(alloc),
        }
    }

    /// Adds a value by its key.
    ///
    /// # Errors
    /// `NoMemory` if an allocation failed. Nothing is added.
    pub(crate) fn add(&mut self, key: K, value: V) -> Result<(), NoMemory> {
        match self.new.insert(key, value) {
            Ok(_) => Ok(()),
            Err(_) => Err(NoMemory),
        }
    }

    /// The last value of this key.
    pub(crate) fn get(&self, key: &K) -> Option<&V> {
        self.get_new(key).or(self.old.get(key))
    }

    /// The value of this key, if it was added since the last tick.
    pub(crate) fn get_new(&self, key: &K) -> Option<&V> {
        self.new.get(key)
    }

    /// How many keys have a value that was added since the last tick.
    pub(crate) fn count_new(&self) -> usize {
        self.new.len()
    }

    /// A tick. What is added next takes the memory of what is forgotten, if there is any.
    pub(crate) fn tick(&mut self) {
        std::mem::swap(&mut self.old, &mut self.new);
        if self.new.is_empty() {
            self.new = IndexMap::new(self.alloc);
        } else {
            self.new.clear();
        }
    }
}
