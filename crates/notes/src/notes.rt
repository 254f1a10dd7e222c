//! The notes of the sites of a room. Their owner removes the note of a site that nobody is in as
//! any more.

ghost use Rattle.std.specs.Prelude.{◌≡◌, ◌<◌, [], IfOk, OnErr, OnOk, None, Some, length, option_map};
ghost use Rattle.std.specs.Prelude.{if◌then◌else◌};
ghost use Rattle.wire.specs.Form.{AreNotes};
ghost use Rattle.wire.specs.Notes.{all_notes, note_of, notes_after, with_note};
ghost use Rattle.notes.specs.Notes.{notes_at};

use base_types::{MAX_SITE, NoMemory, ValueText};
use std::alloc::Global;
use std::marker::Model;
use wire::{NoteList, NoteRequest};

/// The note of each site that has one.
#[derive(Drop)]
pub struct Notes {
    /// The note of a site is at the place of its number.
    places: Vec<Option<ValueText>>,
    changes: u64,
}

impl Model for Notes {
    ghost use Rattle.notes.specs.Notes.{NotePlaces};

    ghost Value = { NotePlaces };

    ghost view = { λ n. n.places.items };
}

impl Notes {
    /// No notes. Takes no memory.
    pub fn none(alloc: Global) -> Notes
        ensures { result ≡ [] }
    {
        Notes {
            places: Vec::new(alloc),
            changes: 0,
        }
    }

    /// How often a note has changed, which says whether one has changed since.
    pub fn count_changes(&self) -> u64 {
        self.changes
    }

    /// All notes after a request of a site, in order of site. Nothing changes. Linear in the
    /// greatest number of sites.
    ///
    /// # Errors
    /// `NoMemory` if an allocation failed.
    pub fn list_after(
        &self,
        alloc: Global,
        asker: u32,
        request: &NoteRequest,
    ) -> Result<NoteList, NoMemory>
        ensures list { IfOk result (λ list.
            list ≡ all_notes (notes_after asker request.now (notes_at self.now))) }
        ensures range { IfOk result AreNotes }
    {
        let mut notes = Vec::new(alloc);
        for site in 1..=MAX_SITE {
            if let Some(text) = self.note_after(asker, request, site) {
                // This reads the range of the text into the proof.
                let _text = text.text();
                notes.push((site, text.copy(alloc)?))?;
            }
        }
        Ok(NoteList::from_vec(notes))
    }

    /// Carries out a request of a site.
    ///
    /// # Errors
    /// `NoMemory` if an allocation failed. Nothing changes.
    pub fn carry_out(&mut self, asker: u32, request: NoteRequest) -> Result<(), NoMemory>
        ensures ok { OnOk result
            (notes_at self.new ≡ notes_after asker request (notes_at self.old)) }
        ensures err { OnErr result (self.new ≡ self.old) }
    {
        let NoteRequest::Set { text } = request else {
            return Ok(());
        };
        self.reach(asker)?;
        self.put(asker, note_of(text));
        Ok(())
    }

    /// Removes the note of this site, if it has one. Takes no memory.
    pub fn remove(&mut self, site: u32)
        ensures { notes_at self.new ≡ with_note site None (notes_at self.old) }
    {
        if (site as usize) < self.places.len() {
            self.put(site, None);
        }
    }

    /// Puts this at the place of a site.
    fn put(&mut self, site: u32, note: Option<ValueText>)
        requires { site < length self.old }
        ensures { notes_at self.new ≡ with_note site note (notes_at self.old) }
    {
        let place = site as usize;
        let is_change = self.places[place] != note;
        self.places[place] = note;
        self.changes = self.changes.wrapping_add(u64::from(is_change));
    }

    /// Appends places without notes up to that of this site.
    fn reach(&mut self, site: u32) -> Result<(), NoMemory>
        ensures ok { OnOk result (notes_at self.new ≡ notes_at self.old) }
        ensures place { OnOk result (site < length self.new) }
        ensures err { OnErr result (self.new ≡ self.old) }
    {
        let place = site as usize;
        if self.places.len() <= place {
            self.places.reserve(place - self.places.len() + 1)?;
            while self.places.len() <= place {
                self.places.push_reserved(None);
            }
        }
        Ok(())
    }

    /// The note of a site after a request of the asker.
    fn note_after<'a>(
        &'a self,
        asker: u32,
        request: &'a NoteRequest,
        site: u32,
    ) -> Option<&'a ValueText>
        ensures note { option_map (λ text. text.now) result
            ≡ notes_after asker request.now (notes_at self.now) site }
    {
        match request {
            NoteRequest::Set { text } if asker == site => {
                if is_note(text) { Some(text) } else { None }
            }
            _ => self.get(site),
        }
    }

    /// The note of a site.
    fn get(&self, site: u32) -> Option<&ValueText>
        ensures { option_map (λ text. text.now) result ≡ notes_at self.now site }
    {
        match self.places.get(site as usize) {
            Some(Some(text)) => Some(text),
            _ => None,
        }
    }
}

/// The text as a note. The empty one is none.
fn note_of(text: ValueText) -> Option<ValueText>
    ensures { result ≡ note_of text }
{
    if is_note(&text) { Some(text) } else { None }
}

/// Is the text a note? The empty one is none.
fn is_note(text: &ValueText) -> bool
    ensures { note_of text.now ≡ (if result then Some text.now else None) }
{
    !text.text().is_empty()
}
