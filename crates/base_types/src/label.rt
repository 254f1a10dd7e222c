//! Labels: the texts that name keys and kinds, and the first rooms of chains.

ghost use Rattle.std.specs.Prelude.{◌≡◌, List, ℕ, true, false, None, IfOk, not, position};
ghost use Rattle.base_types.specs.steps.Faults.{FailsBy, OnFault};
ghost use Rattle.base_types.specs.Texts.{is_label, is_label_byte, label_fault};

use crate::fault::{NameFault, NoMemory};
use crate::text::Text;
use std::alloc::Global;
use std::marker::{Model, PhantomData};

/// A text of 1 to `LONGEST` bytes, each one of a-z, 0-9 and `-`. `Mark` makes labels for different
/// purposes different types. Labels are ordered by their bytes.
#[derive(Drop)]
#[derive_where(Debug, PartialEq, Eq, PartialOrd, Ord, Hash)]
pub struct Label<const LONGEST: usize, Mark> {
    text: Text,
    #[derive_where(skip)]
    mark: PhantomData<Mark>,
}

/// Marks keys.
#[derive(Drop)]
pub enum KeyMark {}

/// Marks kinds.
#[derive(Drop)]
pub enum KindMark {}

/// The key of an attribute: 1 to 32 bytes.
pub type Key = Label<32, KeyMark>;

/// The kind of an object: 1 to 32 bytes.
pub type Kind = Label<32, KindMark>;

impl<const LONGEST: usize, Mark> Model for Label<LONGEST, Mark> {
    ghost Value = { List ℕ };

    ghost view = { λ label. label.text };

    ghost invariant = { λ label. is_label LONGEST label.text ≡ true };

    ghost inverse = { λ bytes. record { text = bytes; mark = record {} } };
}

/// Is it one of a-z, 0-9 and `-`?
fn is_label_byte(byte: u8) -> bool
    ensures { result ≡ is_label_byte byte }
{
    matches!(byte, b'a'..=b'z' | b'0'..=b'9' | b'-')
}

/// The place of the first byte that is not one of a-z, 0-9 and `-`.
fn bad_place(bytes: &[u8]) -> Option<usize>
    ensures { result ≡ position (λ byte. not (is_label_byte byte)) bytes.now }
{
    bytes.iter().position(|byte| !is_label_byte(*byte))
}

/// The first fault of a label of at most `longest` bytes, if it has one.
#[tactic(auto, unfolding(crate::specs::Texts::label_fault))]
pub(crate) fn label_fault(bytes: &[u8], longest: usize) -> Option<NameFault>
    ensures { result ≡ label_fault longest bytes.now }
{
    if bytes.is_empty() {
        return Some(NameFault::Empty);
    }
    if bytes.len() > longest {
        return Some(NameFault::TooLong);
    }
    match bad_place(bytes) {
        Some(place) => Some(NameFault::BadByte(place)),
        None => None,
    }
}

/// The bytes as the text of a label of at most `longest` bytes.
pub(crate) fn label_text(alloc: Global, bytes: &[u8], longest: usize) -> Result<Text, NameFault>
    ensures ok { IfOk result (λ text. (text ≡ bytes.now) × (label_fault longest bytes.now ≡ None)) }
    ensures fault { FailsBy NameFault.NoMemory (label_fault longest bytes.now) result }
{
    if let Some(fault) = label_fault(bytes, longest) {
        return Err(fault);
    }
    let Ok(text) = std::str::from_utf8(bytes) else {
        unreachable!()
    };
    Ok(Text::from_str(alloc, text)?)
}

impl<const LONGEST: usize, Mark> Label<LONGEST, Mark> {
    /// Reads a label from bytes. Linear in their number.
    ///
    /// # Errors
    ///
    /// - `Empty` if there are no bytes.
    /// - `TooLong` if there are more than `LONGEST`.
    /// - `BadByte` with the place of the first byte that is not one of a-z, 0-9 and `-`.
    /// - `NoMemory` if an allocation failed.
    pub fn parse(alloc: Global, bytes: &[u8]) -> Result<Self, NameFault>
        ensures ok { IfOk result (λ label.
            (label ≡ bytes.now) × (is_label LONGEST bytes.now ≡ true)) }
        ensures fault { FailsBy NameFault.NoMemory (label_fault LONGEST bytes.now) result }
        ensures invalid { OnFault NameFault.NoMemory result (is_label LONGEST bytes.now ≡ false) }
    {
        let text = label_text(alloc, bytes, LONGEST)?;
        Ok(Label {
            text,
            mark: PhantomData,
        })
    }

    /// The label's text.
    pub fn text(&self) -> &str
        ensures text { result.now ≡ self.now }
        ensures range { is_label LONGEST self.now ≡ true }
    {
        self.text.as_str()
    }

    /// Returns an equal copy.
    ///
    /// # Errors
    ///
    /// `NoMemory` if an allocation failed.
    pub fn copy(&self, alloc: Global) -> Result<Self, NoMemory>
        ensures { IfOk result (λ label. label ≡ self.now) }
    {
        let text = self.text.copy(alloc)?;
        Ok(Label {
            text,
            mark: PhantomData,
        })
    }
}
