//! What operations do, from the tokens of their text.

ghost use Rattle.std.specs.Prelude.{◌≤◌, ℕ};
ghost use Rattle.wire_reader.specs.steps.Bodies.{new_at, put_at, drop_at, one_pair_at, body_at, operation_at};
ghost use Rattle.wire_reader.specs.steps.Reading.{end_at, field_at, key_in, pairs_in, value_in};
ghost use Rattle.wire_reader.specs.steps.Streams.{rest_in, Takes};

use crate::fault::ReadFault;
use crate::part::{Part, attrs_of, id_of, key_of, kind_of, name_of, pairs_of, seen_of, value_of};
use crate::token::close_list;
use base_types::{Key, StateVector, Value};
use json::Reader;
use rules::{Body, Pairs};
use std::alloc::Global;

fn new_of(alloc: Global, reader: &mut Reader<'_>) -> Result<Body, ReadFault>
    ensures { (n : ℕ) → 2 ≤ n → Takes (λ body. body) result
        (rest_in new_at n reader.old) reader.new }
{
    let kind = kind_of(alloc, reader)?;
    let attrs = attrs_of(alloc, reader)?;
    close_list(reader)?;
    Ok(Body::New { kind, attrs })
}

/// The attributes of a put, and the end of its list.
fn last_pairs_of(alloc: Global, reader: &mut Reader<'_>) -> Result<Pairs, ReadFault>
    ensures { (n : ℕ) → 2 ≤ n → Takes (λ pairs. (pairs, tt)) result
        (rest_in (field_at pairs_in end_at) n reader.old) reader.new }
{
    let pairs = pairs_of(alloc, reader)?;
    close_list(reader)?;
    Ok(pairs)
}

fn put_of(alloc: Global, reader: &mut Reader<'_>) -> Result<Body, ReadFault>
    ensures { (n : ℕ) → 2 ≤ n → Takes (λ body. body) result
        (rest_in put_at n reader.old) reader.new }
{
    let object = name_of(reader)?;
    let version = id_of(alloc, reader)?;
    let pairs = last_pairs_of(alloc, reader)?;
    Ok(Body::Put {
        object,
        version,
        pairs,
    })
}

fn drop_of(alloc: Global, reader: &mut Reader<'_>) -> Result<Body, ReadFault>
    ensures { (n : ℕ) → 2 ≤ n → Takes (λ body. body) result
        (rest_in drop_at n reader.old) reader.new }
{
    let object = name_of(reader)?;
    let version = id_of(alloc, reader)?;
    close_list(reader)?;
    Ok(Body::DropVersion { object, version })
}

/// A key and a value, and the end of the list.
fn last_pair_of(alloc: Global, reader: &mut Reader<'_>) -> Result<(Key, Value), ReadFault>
    ensures { (n : ℕ) → Takes (λ pair. (pair.0, (pair.1, tt))) result
        (rest_in (field_at key_in (field_at value_in end_at)) n reader.old) reader.new }
{
    let key = key_of(alloc, reader)?;
    let value = value_of(alloc, reader)?;
    close_list(reader)?;
    Ok((key, value))
}

/// A put of one pair, in the old form.
fn set_of(alloc: Global, reader: &mut Reader<'_>) -> Result<Body, ReadFault>
    ensures { (n : ℕ) → 2 ≤ n → Takes (λ body. body) result
        (rest_in one_pair_at n reader.old) reader.new }
{
    let object = name_of(reader)?;
    let version = id_of(alloc, reader)?;
    let (key, value) = last_pair_of(alloc, reader)?;
    Ok(Body::Put {
        object,
        version,
        pairs: Pairs::one(key, value),
    })
}

/// What the operation of a word does, to the end of its list.
fn body_of(alloc: Global, word: &str, reader: &mut Reader<'_>) -> Result<Body, ReadFault>
    ensures { (n : ℕ) → 2 ≤ n → Takes (λ body. body) result
        (rest_in (body_at word.now) n reader.old) reader.new }
{
    match word {
        "new" => new_of(alloc, reader),
        "put" => put_of(alloc, reader),
        "drop" => drop_of(alloc, reader),
        "set" => set_of(alloc, reader),
        _ => Err(ReadFault::Bad),
    }
}

/// What follows the word of an operation: its name or its number, what its author had seen, and
/// what it does.
pub(crate) fn operation_of<H: Part>(
    alloc: Global,
    word: &str,
    reader: &mut Reader<'_>,
) -> Result<(H, StateVector, Body), ReadFault>
    ensures { (n : ℕ) → 2 ≤ n → H.levels ≤ n → Takes (λ op. (H.seen op.0, (op.1, op.2))) result
        (rest_in (operation_at H.read_in word.now) n reader.old) reader.new }
{
    let head = H::read(alloc, reader)?;
    let seen = seen_of(alloc, reader)?;
    let body = body_of(alloc, word, reader)?;
    Ok((head, seen, body))
}
