//! Values that have a JSON form, and their texts. Brackets and commas are put behind a text at
//! once: a writer of tokens takes twice the time.

ghost use Rattle.std.specs.Prelude.{◌≡◌, ◌∷◌, [], ◌++◌, true, map, pos, IfOk, OnOk};
ghost use Rattle.std.specs.Prelude.{string_bytes};
ghost use Rattle.std.specs.List.{list_all};
ghost use Rattle.json.specs.Print.{quoted};
ghost use Rattle.serde_json.specs.Data.{Data, string};
ghost use Rattle.serde_json.specs.Written.{compact_text};
ghost use Rattle.base_types.specs.declared.value.Value.TheVariants.{Number};
ghost use Rattle.wire.specs.Form.{list_form, whole_form, name_form, names_form, value_form};
ghost use Rattle.wire.specs.Form.{shown_form, version_form};
ghost use Rattle.wire.specs.steps.Quoting.{is_plain_byte};

use super::number::{push_number, push_pair};
use crate::shared_id::SharedId;
use base_types::{Key, Kind, NoMemory, OpName, StateVector, ValueText, VersionId};
use itoa::Buffer;
use json::Writer;
use rules::{Shown, Version};
use std::alloc::Global;

/// How many bytes are reserved for a text at first.
pub(super) const FIRST_ROOM: usize = 128;

/// A value with a JSON form. This is not serde's `Serialize`, which can't state the form of a tuple
/// or of another crate's type.
pub(crate) trait Written {
    ghost form: { Self → Data };

    /// Puts the compact text of the form behind a text: the form without white space.
    fn write(&self, alloc: Global, text: &mut String) -> Result<(), NoMemory>
        ensures { OnOk result (string_bytes text.new
            ≡ string_bytes text.old ++ compact_text (form self.now)) };
}

/// The compact text of a part: its form without white space.
pub(crate) fn compact<W: Written>(alloc: Global, part: &W) -> Result<String, NoMemory>
    ensures { IfOk result (λ text. string_bytes text ≡ compact_text (W.form part.now)) }
{
    compact_within(alloc, part, FIRST_ROOM)
}

/// The compact text of a part, for which this many bytes are reserved at first.
pub(crate) fn compact_within<W: Written>(
    alloc: Global,
    part: &W,
    room: usize,
) -> Result<String, NoMemory>
    ensures { IfOk result (λ text. string_bytes text ≡ compact_text (W.form part.now)) }
{
    let mut text = String::with_capacity(alloc, room)?;
    part.write(alloc, &mut text)?;
    Ok(text)
}

/// Puts a whole number behind a text.
fn push_integer(text: &mut String, number: i64) -> Result<(), NoMemory>
    ensures { OnOk result (string_bytes text.new
        ≡ string_bytes text.old ++ compact_text (value_form (Number number))) }
{
    if 0 <= number && number <= i64::from(u32::MAX) {
        return push_number(text, number as u32);
    }
    let mut digits = Buffer::new();
    text.push_str(digits.format(number))?;
    Ok(())
}

/// Returns whether no byte of a text has to be escaped in JSON.
fn is_plain(text: &[u8]) -> bool
    ensures { result ≡ list_all is_plain_byte text.now }
{
    text.iter()
        .all(|byte| 0x20 <= *byte && *byte != b'"' && *byte != b'\\')
}

/// A text in quotes, with escapes.
fn quoted(alloc: Global, content: &str) -> Result<String, NoMemory>
    ensures { IfOk result (λ text. string_bytes text ≡ quoted content.now) }
{
    let mut out = Writer::new(Vec::new(alloc));
    out.string(content)?;
    // SAFETY: a writer's bytes are UTF-8. The prover refuses this call without a proof of that.
    Ok(unsafe { String::from_utf8_unchecked(out.into_inner()) })
}

/// Puts a text of plain bytes in quotes behind a text.
fn push_plain(content: &str, text: &mut String) -> Result<(), NoMemory>
    requires { list_all is_plain_byte content.now ≡ true }
    ensures { OnOk result (string_bytes text.new ≡ string_bytes text.old ++ quoted content.now) }
{
    text.push('"')?;
    text.push_str(content)?;
    text.push('"')?;
    Ok(())
}

/// Puts a text in quotes, with escapes, behind a text.
fn push_escaped(content: &str, alloc: Global, text: &mut String) -> Result<(), NoMemory>
    ensures { OnOk result (string_bytes text.new ≡ string_bytes text.old ++ quoted content.now) }
{
    text.push_str(&quoted(alloc, content)?)?;
    Ok(())
}

impl Written for &str {
    ghost form = { λ text. string text.now };

    fn write(&self, alloc: Global, text: &mut String) -> Result<(), NoMemory> {
        if is_plain(self.as_bytes()) {
            return push_plain(self, text);
        }
        push_escaped(self, alloc, text)
    }
}

impl Written for u32 {
    ghost form = { whole_form };

    fn write(&self, _alloc: Global, text: &mut String) -> Result<(), NoMemory> {
        push_number(text, *self)
    }
}

impl<W: Written> Written for &W {
    ghost form = { λ part. W.form part.now };

    fn write(&self, alloc: Global, text: &mut String) -> Result<(), NoMemory> {
        (**self).write(alloc, text)
    }
}

impl<W: Written> Written for &[W] {
    ghost form = { λ parts. list_form (map W.form parts.now) };

    fn write(&self, alloc: Global, text: &mut String) -> Result<(), NoMemory> {
        text.push('[')?;
        for at in 0..self.len() {
            if at > 0 {
                text.push(',')?;
            }
            self[at].write(alloc, text)?;
        }
        text.push(']')?;
        Ok(())
    }
}

/// Puts a comma and the text of a part behind a text.
fn write_next<W: Written>(part: &W, alloc: Global, text: &mut String) -> Result<(), NoMemory>
    ensures { OnOk result (string_bytes text.new
        ≡ string_bytes text.old ++ 44 ∷ compact_text (W.form part.now)) }
{
    text.push(',')?;
    part.write(alloc, text)
}

/// Puts a comma and the text of a part behind a text, twice.
fn write_both<A: Written, B: Written>(
    part: &A,
    next: &B,
    alloc: Global,
    text: &mut String,
) -> Result<(), NoMemory>
    ensures { OnOk result (string_bytes text.new ≡ string_bytes text.old
        ++ 44 ∷ (compact_text (A.form part.now) ++ 44 ∷ compact_text (B.form next.now))) }
{
    write_next(part, alloc, text)?;
    write_next(next, alloc, text)
}

/// Puts a comma, the text of a list's last part, and the list's end behind a text.
fn write_last<W: Written>(part: &W, alloc: Global, text: &mut String) -> Result<(), NoMemory>
    ensures { OnOk result (string_bytes text.new
        ≡ string_bytes text.old ++ 44 ∷ (compact_text (W.form part.now) ++ 93 ∷ [])) }
{
    write_next(part, alloc, text)?;
    text.push(']')?;
    Ok(())
}

impl<A: Written> Written for (A,) {
    ghost form = { λ p. list_form (A.form p.0 ∷ []) };

    fn write(&self, alloc: Global, text: &mut String) -> Result<(), NoMemory> {
        text.push('[')?;
        self.0.write(alloc, text)?;
        text.push(']')?;
        Ok(())
    }
}

impl<A: Written, B: Written> Written for (A, B) {
    ghost form = { λ p. list_form (A.form p.0 ∷ B.form p.1 ∷ []) };

    fn write(&self, alloc: Global, text: &mut String) -> Result<(), NoMemory> {
        text.push('[')?;
        self.0.write(alloc, text)?;
        write_last(&self.1, alloc, text)
    }
}

impl<A: Written, B: Written, C: Written> Written for (A, B, C) {
    ghost form = { λ p. list_form (A.form p.0 ∷ B.form p.1 ∷ C.form p.2 ∷ []) };

    fn write(&self, alloc: Global, text: &mut String) -> Result<(), NoMemory> {
        text.push('[')?;
        self.0.write(alloc, text)?;
        write_next(&self.1, alloc, text)?;
        write_last(&self.2, alloc, text)
    }
}

impl<A: Written, B: Written, C: Written, D: Written> Written for (A, B, C, D) {
    ghost form = { λ p. list_form (A.form p.0 ∷ B.form p.1 ∷ C.form p.2 ∷ D.form p.3 ∷ []) };

    fn write(&self, alloc: Global, text: &mut String) -> Result<(), NoMemory> {
        text.push('[')?;
        self.0.write(alloc, text)?;
        write_both(&self.1, &self.2, alloc, text)?;
        write_last(&self.3, alloc, text)
    }
}

impl<A: Written, B: Written, C: Written, D: Written, E: Written> Written for (A, B, C, D, E) {
    ghost form = { λ p. list_form
        (A.form p.0 ∷ B.form p.1 ∷ C.form p.2 ∷ D.form p.3 ∷ E.form p.4 ∷ []) };

    fn write(&self, alloc: Global, text: &mut String) -> Result<(), NoMemory> {
        text.push('[')?;
        self.0.write(alloc, text)?;
        write_both(&self.1, &self.2, alloc, text)?;
        write_next(&self.3, alloc, text)?;
        write_last(&self.4, alloc, text)
    }
}

impl<A: Written, B: Written, C: Written, D: Written, E: Written, F: Written> Written
    for (A, B, C, D, E, F) {
    ghost form = { λ p. list_form
        (A.form p.0 ∷ B.form p.1 ∷ C.form p.2 ∷ D.form p.3 ∷ E.form p.4 ∷ F.form p.5 ∷ []) };

    fn write(&self, alloc: Global, text: &mut String) -> Result<(), NoMemory> {
        text.push('[')?;
        self.0.write(alloc, text)?;
        write_both(&self.1, &self.2, alloc, text)?;
        write_both(&self.3, &self.4, alloc, text)?;
        write_last(&self.5, alloc, text)
    }
}

impl Written for OpName {
    ghost form = { name_form };

    fn write(&self, _alloc: Global, text: &mut String) -> Result<(), NoMemory> {
        push_pair(text, self.site(), self.seq())
    }
}

impl Written for StateVector {
    ghost form = { names_form };

    fn write(&self, _alloc: Global, text: &mut String) -> Result<(), NoMemory> {
        let pairs = self.pairs();
        text.push('[')?;
        for at in 0..pairs.len() {
            if at > 0 {
                text.push(',')?;
            }
            let (site, count) = pairs[at];
            push_pair(text, site, count)?;
        }
        text.push(']')?;
        Ok(())
    }
}

impl Written for VersionId {
    ghost form = { names_form };

    fn write(&self, alloc: Global, text: &mut String) -> Result<(), NoMemory> {
        self.names().write(alloc, text)
    }
}

impl Written for SharedId {
    ghost form = { names_form };

    fn write(&self, alloc: Global, text: &mut String) -> Result<(), NoMemory> {
        let Some(known) = self.text() else {
            return self.names().write(alloc, text);
        };
        text.push_str(known)?;
        Ok(())
    }
}

impl Written for Key {
    ghost form = { string };

    fn write(&self, alloc: Global, text: &mut String) -> Result<(), NoMemory> {
        self.text().write(alloc, text)
    }
}

impl Written for Kind {
    ghost form = { string };

    fn write(&self, alloc: Global, text: &mut String) -> Result<(), NoMemory> {
        self.text().write(alloc, text)
    }
}

impl Written for ValueText {
    ghost form = { string };

    fn write(&self, alloc: Global, text: &mut String) -> Result<(), NoMemory> {
        self.text().write(alloc, text)
    }
}

impl Written for base_types::Value {
    ghost form = { value_form };

    fn write(&self, alloc: Global, text: &mut String) -> Result<(), NoMemory> {
        match self {
            base_types::Value::Number(number) => push_integer(text, *number),
            base_types::Value::Text(content) => content.text().write(alloc, text),
        }
    }
}

impl Written for Shown {
    ghost form = { shown_form };

    fn write(&self, alloc: Global, text: &mut String) -> Result<(), NoMemory> {
        match self {
            Shown::Attrs(attrs) => attrs.as_slice().write(alloc, text),
            Shown::Gone => "gone".write(alloc, text),
        }
    }
}

impl Written for Version {
    ghost form = { version_form };

    fn write(&self, alloc: Global, text: &mut String) -> Result<(), NoMemory> {
        (&self.id, &self.shown).write(alloc, text)
    }
}
