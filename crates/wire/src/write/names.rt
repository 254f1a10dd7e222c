//! Puts a name into the text of other names. So an identifier that grows keeps the text that it had.

ghost use Rattle.std.specs.Prelude.{◌≡◌, ◌<◌, ◌≤◌, ◌^◌, ◌∷◌, length, take, OnOk, string_bytes};
ghost use Rattle.std.specs.Fmt.{decimal};
ghost use Rattle.std.specs.List.{insert};
ghost use Rattle.serde_json.specs.Written.{compact_text};
ghost use Rattle.wire.specs.Form.{names_form};
ghost use Rattle.wire.specs.steps.Growing.{next_name, next_names};

use super::number::push_pair;
use base_types::{NoMemory, OpName};
use std::alloc::Global;

/// The most bytes that a text grows by for a name: two numbers of ten digits, two brackets and two
/// commas.
pub(crate) const MOST_BYTES_MORE: usize = 24;

/// The number of decimal digits of a number.
fn count_digits(number: u32) -> usize
    ensures { result ≡ length (decimal number) }
{
    let mut count = 1;
    let mut rest = number;
    while rest >= 10 {
        rest /= 10;
        count += 1;
    }
    count
}

/// How many bytes the text of a name takes, with a comma.
fn len_of(name: OpName) -> usize
    ensures { result ≡ length (next_name name) }
{
    4 + count_digits(name.site()) + count_digits(name.seq())
}

/// How many bytes the texts of names take, with a comma for each.
fn len_of_all(names: &[OpName]) -> usize
    requires { length (next_names names.now) < 2 ^ 63 }
    ensures { result ≡ length (next_names names.now) }
{
    let mut len = 0;
    for name in names {
        len += len_of(*name);
    }
    len
}

/// Puts a name before others into their text.
fn insert_first(
    alloc: Global,
    text: &mut String,
    names: &[OpName],
    name: OpName,
) -> Result<(), NoMemory>
    requires { string_bytes text.old ≡ compact_text (names_form names.now) }
    ensures { OnOk result
        (string_bytes text.new ≡ compact_text (names_form (name ∷ names.now))) }
{
    let mut piece = String::with_capacity(alloc, MOST_BYTES_MORE)?;
    push_pair(&mut piece, name.site(), name.seq())?;
    if !names.is_empty() {
        piece.push(',')?;
    }
    text.insert_str(1, &piece)?;
    Ok(())
}

/// Puts a name behind the first `at` names into their text.
fn insert_behind(
    alloc: Global,
    text: &mut String,
    names: &[OpName],
    at: usize,
    name: OpName,
) -> Result<(), NoMemory>
    requires some { 0 < at }
    requires within { at ≤ length names.now }
    requires text { string_bytes text.old ≡ compact_text (names_form names.now) }
    ensures { OnOk result
        (string_bytes text.new ≡ compact_text (names_form (insert names.now at name))) }
{
    let mut piece = String::with_capacity(alloc, MOST_BYTES_MORE)?;
    piece.push(',')?;
    push_pair(&mut piece, name.site(), name.seq())?;
    let place = len_of_all(&names[..at]);
    text.insert_str(place, &piece)?;
    Ok(())
}

/// Puts a name behind the first `at` names into their text. Linear in these, and in the text.
pub(crate) fn insert_name(
    alloc: Global,
    text: &mut String,
    names: &[OpName],
    at: usize,
    name: OpName,
) -> Result<(), NoMemory>
    requires within { at ≤ length names.now }
    requires text { string_bytes text.old ≡ compact_text (names_form names.now) }
    ensures { OnOk result
        (string_bytes text.new ≡ compact_text (names_form (insert names.now at name))) }
{
    if at == 0 {
        insert_first(alloc, text, names, name)
    } else {
        insert_behind(alloc, text, names, at, name)
    }
}
