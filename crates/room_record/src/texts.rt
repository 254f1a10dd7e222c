//! Texts in one string, from which any of them that follow one another are taken at once.

ghost use Rattle.std.specs.Prelude.{◌≡◌, ◌-◌, ◌≤◌, ◌++◌, ◌∷◌, [], length, drop, take, IfOk, IfSome, OnErr, OnOk, string_bytes};
ghost use Rattle.room_record.specs.steps.Texts.{between_commas, with_commas};

use base_types::NoMemory;
use std::alloc::Global;
use std::marker::Model;

/// Texts, in the order in which they were added.
#[derive(Drop)]
pub(crate) struct Texts {
    /// The texts with a comma behind each.
    joined: String,
    /// Where each text ends in `joined`, with its comma.
    ends: Vec<usize>,
}

impl Model for Texts {
    ghost use Rattle.std.specs.Prelude.{ℕ, List, string_bytes};
    ghost use Rattle.room_record.specs.steps.Texts.{AreJoined, before_commas};

    ghost Value = { List (List ℕ) };

    ghost view = { λ t. before_commas 0 t.ends.items (string_bytes t.joined) };

    ghost invariant = { λ t.
        AreJoined (string_bytes t.joined) t.ends.items
        (before_commas 0 t.ends.items (string_bytes t.joined)) };
}

impl Texts {
    /// No texts. Takes no memory.
    pub(crate) fn new(alloc: Global) -> Texts
        ensures { result ≡ [] }
    {
        Texts {
            joined: String::new(alloc),
            ends: Vec::new(alloc),
        }
    }

    /// The number of texts.
    pub(crate) fn len(&self) -> usize
        ensures { result ≡ length self.now }
    {
        self.ends.len()
    }

    /// Adds a text. Linear in it on average.
    ///
    /// # Errors
    ///
    /// `NoMemory` if an allocation failed, and then no text is added.
    pub(crate) fn push(&mut self, mut text: String) -> Result<(), NoMemory>
        ensures ok { OnOk result (self.new ≡ self.old ++ string_bytes text ∷ []) }
        ensures err { OnErr result (self.new ≡ self.old) }
    {
        text.push(',')?;
        self.ends.reserve(1)?;
        self.joined.push_str(&text)?;
        self.ends.push_reserved(self.joined.len());
        Ok(())
    }

    /// The texts from a place to another, with commas between them. `None` would say that a
    /// character is cut, which never happens between whole texts, though no contract rules it out.
    /// Linear in these texts.
    ///
    /// # Errors
    ///
    /// `NoMemory` if an allocation failed.
    pub(crate) fn text_of(
        &self,
        alloc: Global,
        from: usize,
        end: usize,
    ) -> Result<Option<String>, NoMemory>
        requires order { from ≤ end }
        requires range { end ≤ length self.now }
        ensures { IfOk result (λ found. IfSome found (λ text. string_bytes text
            ≡ between_commas (take (end - from) (drop from self.now)))) }
    {
        if from == end {
            return Ok(Some(String::new(alloc)));
        }
        let start = self.len_before(from);
        let comma = self.len_before(end) - 1;
        let Some(text) = self.joined.get(start..comma) else {
            return Ok(None);
        };
        Ok(Some(String::from_str(alloc, text)?))
    }

    /// How long the texts before a place are with their commas.
    fn len_before(&self, place: usize) -> usize
        requires { place ≤ length self.now }
        ensures { result ≡ length (with_commas (take place self.now)) }
    {
        if place == 0 { 0 } else { self.ends[place - 1] }
    }
}
