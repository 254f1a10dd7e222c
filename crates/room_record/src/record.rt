//! A room's record, with texts of its entries.

ghost use Rattle.std.specs.Prelude.{◌≡◌, ◌<◌, ◌≤◌, ◌++◌, ◌∷◌, [], length, drop, map, take, IfOk, OnOk};
ghost use Rattle.std.specs.Arc.{arc_value};
ghost use Rattle.room_record.specs.steps.Records.{AreTexts};

use crate::texts::Texts;
use base_types::NoMemory;
use rules::Entry;
use std::alloc::Global;
use std::marker::Model;
use std::sync::Arc;
use wire::{EntryList, write_entry};

/// The entries of a room, and texts of the first of them. A page makes the texts that it lacks and
/// keeps them, unless it begins after the first entry without a text.
#[derive(Drop)]
pub struct Record {
    entries: Vec<Arc<Entry>>,
    texts: Texts,
}

impl Model for Record {
    ghost use Rattle.std.specs.Prelude.{◌-◌, map, vec_capacity, vec_len};
    ghost use Rattle.std.specs.Arc.{arc_value};
    ghost use Rattle.room_record.specs.steps.Records.{AreTexts, RecordState};

    ghost Value = { RecordState };

    ghost view = { λ r. record {
      entries = map arc_value r.entries.items;
      spare = vec_capacity r.entries - vec_len r.entries;
    } };

    ghost invariant = { λ r. AreTexts r.texts (map arc_value r.entries.items) };
}

impl Record {
    /// An empty record. Takes no memory.
    pub fn new(alloc: Global) -> Record
        ensures { result.entries ≡ [] }
    {
        Record {
            entries: Vec::new(alloc),
            texts: Texts::new(alloc),
        }
    }

    /// The entries, in the order in which they were added.
    pub fn as_slice(&self) -> &[Arc<Entry>]
        ensures { map arc_value result.now ≡ self.now.entries }
    {
        &self.entries
    }

    /// The entries, of a record that is given up.
    pub fn into_vec(self) -> Vec<Arc<Entry>>
        ensures { map arc_value result.items ≡ self.entries }
    {
        self.entries
    }

    /// The number of entries.
    pub fn len(&self) -> usize
        ensures { result ≡ length self.now.entries }
    {
        self.entries.len()
    }

    /// Reserves memory for one more entry.
    ///
    /// # Errors
    ///
    /// `NoMemory` if an allocation failed.
    pub fn reserve_one(&mut self) -> Result<(), NoMemory>
        ensures memory { OnOk result (0 < self.new.spare) }
        ensures entries { self.new.entries ≡ self.old.entries }
    {
        self.entries.reserve(1)?;
        Ok(())
    }

    /// Adds an entry, for which memory is reserved.
    pub fn push_reserved(&mut self, entry: Arc<Entry>)
        requires { 0 < self.old.spare }
        ensures { self.new.entries ≡ self.old.entries ++ arc_value entry ∷ [] }
    {
        self.entries.push_reserved(entry);
    }

    /// At most `count` entries from a place on. The page has its text too, unless an entry before
    /// the place has none. Linear in the page and its text on average: the string of all texts
    /// moves when it grows.
    ///
    /// # Errors
    ///
    /// `NoMemory` if an allocation failed.
    pub fn page(&mut self, alloc: Global, from: usize, count: usize) -> Result<EntryList, NoMemory>
        requires { from ≤ length self.old.entries }
        ensures page { IfOk result (λ page. page ≡ take count (drop from self.old.entries)) }
        ensures record { self.new ≡ self.old }
    {
        let end = from + count.min(self.entries.len() - from);
        let entries = shared_entries(alloc, &self.entries[from..end])?;
        if from > self.texts.len() {
            return Ok(EntryList::from_vec(entries));
        }
        write_texts(alloc, &self.entries, end, &mut self.texts)?;
        let Some(text) = self.texts.text_of(alloc, from, end)? else {
            return Ok(EntryList::from_vec(entries));
        };
        Ok(EntryList::with_text(entries, text))
    }
}

/// Shared owners of these entries, in their order. Linear in the number of entries.
///
/// # Errors
///
/// `NoMemory` if an allocation failed.
pub fn shared_entries(alloc: Global, entries: &[Arc<Entry>]) -> Result<Vec<Arc<Entry>>, NoMemory>
    ensures { IfOk result (λ owners. map arc_value owners.items ≡ map arc_value entries.now) }
{
    let mut owners = Vec::with_capacity(alloc, entries.len())?;
    for entry in entries {
        owners.push(entry.clone()?)?;
    }
    Ok(owners)
}

/// Adds the texts that are missing of the entries before a place.
fn write_texts(
    alloc: Global,
    entries: &[Arc<Entry>],
    end: usize,
    texts: &mut Texts,
) -> Result<(), NoMemory>
    requires texts { AreTexts texts.old (map arc_value entries.now) }
    requires range { end ≤ length entries.now }
    ensures texts { AreTexts texts.new (map arc_value entries.now) }
    ensures all { OnOk result (end ≤ length texts.new) }
{
    for place in texts.len()..end {
        let text = write_entry(alloc, &entries[place])?;
        texts.push(text)?;
    }
    Ok(())
}
