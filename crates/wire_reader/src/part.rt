//! The parts of a form, from the tokens of its text.

ghost use Rattle.std.specs.Str.{is_utf8};
ghost use Rattle.std.specs.Prelude.{◌≡◌, ◌≤◌, ◌∷◌, [], ℕ, List, Option, Some, None, true, MatchResult, if◌then◌else◌, map, suc};
ghost use Rattle.json.specs.Reads.{token_of};
ghost use Rattle.serde_json.specs.Data.{Data};
ghost use Rattle.wire_reader.specs.steps.Reading.{Fails, Gives, name_in, pair_in, whole_in, room_in, list_in, two_in, all_in, seen_in, id_in, key_in, kind_in, value_in, attr_in, attrs_in, pairs_in};
ghost use Rattle.wire_reader.specs.steps.Reads.{json_of, text_in};
ghost use Rattle.wire_reader.specs.steps.Streams.{next_in, rest_in, fronted, value_of, Takes};
ghost use Rattle.base_types.specs.Names.{is_op_name};
ghost use Rattle.base_types.specs.Texts.{is_key, is_kind};
ghost use Rattle.base_types.specs.RoomNames.{is_room_name};
ghost use Rattle.base_types.specs.VersionIds.{names_rise};
ghost use Rattle.base_types.specs.Vectors.{is_vector};
ghost use Rattle.rules.specs.AttrLists.{Attr, are_attrs, are_pairs};
ghost use Rattle.base_types.specs.declared.op_name.TheConstants.{MAX_SEQ};

use crate::fault::ReadFault;
use crate::token::{Seq, close_list, integer_in_text, open_list, text_of, whole_of};
use base_types::{Key, Kind, MAX_SEQ, OpName, RoomName, SitePairs, StateVector, VersionId};
use json::{Reader, Scratch, Token};
use rules::{Attrs, Pairs};
use std::alloc::Global;

/// Two numbers. Whoever takes them tests their ranges.
fn pair_of(reader: &mut Reader<'_>) -> Result<(u32, u32), ReadFault>
    ensures { (n : ℕ) → 1 ≤ n → Takes (λ pair. pair) result
        (next_in pair_in n reader.old) reader.new }
{
    open_list(reader)?;
    let first = whole_of(reader, 0, u32::MAX)?;
    let second = whole_of(reader, 0, u32::MAX)?;
    close_list(reader)?;
    Ok((first, second))
}

/// The name that a pair is.
fn name_with(pair: (u32, u32)) -> Result<OpName, ReadFault>
    ensures { Gives (λ name. name) result (if is_op_name pair then Some pair else None) }
{
    OpName::new(pair.0, pair.1).ok_or(ReadFault::Bad)
}

pub(crate) fn name_of(reader: &mut Reader<'_>) -> Result<OpName, ReadFault>
    ensures { (n : ℕ) → 1 ≤ n → Takes (λ name. name) result
        (next_in name_in n reader.old) reader.new }
{
    let pair = pair_of(reader)?;
    name_with(pair)
}

/// The name of a room that a text is.
fn room_with(alloc: Global, text: &str) -> Result<RoomName, ReadFault>
    ensures { Gives (λ room. room) result
        (if is_room_name text.now then Some text.now else None) }
{
    Ok(RoomName::parse(alloc, text.as_bytes())?)
}

pub(crate) fn room_of(alloc: Global, reader: &mut Reader<'_>) -> Result<RoomName, ReadFault>
    ensures { (n : ℕ) → Takes (λ room. room) result (next_in room_in n reader.old) reader.new }
{
    let text = text_of(reader)?;
    room_with(alloc, text)
}

/// The key that a text is.
fn key_with(alloc: Global, text: &str) -> Result<Key, ReadFault>
    ensures { Gives (λ key. key) result (if is_key text.now then Some text.now else None) }
{
    Ok(Key::parse(alloc, text.as_bytes())?)
}

pub(crate) fn key_of(alloc: Global, reader: &mut Reader<'_>) -> Result<Key, ReadFault>
    ensures { (n : ℕ) → Takes (λ key. key) result (next_in key_in n reader.old) reader.new }
{
    let text = text_of(reader)?;
    key_with(alloc, text)
}

/// The kind that a text is.
fn kind_with(alloc: Global, text: &str) -> Result<Kind, ReadFault>
    ensures { Gives (λ kind. kind) result (if is_kind text.now then Some text.now else None) }
{
    Ok(Kind::parse(alloc, text.as_bytes())?)
}

pub(crate) fn kind_of(alloc: Global, reader: &mut Reader<'_>) -> Result<Kind, ReadFault>
    ensures { (n : ℕ) → Takes (λ kind. kind) result (next_in kind_in n reader.old) reader.new }
{
    let text = text_of(reader)?;
    kind_with(alloc, text)
}

/// The value that a token is.
fn value_with(alloc: Global, token: Token<'_>) -> Result<base_types::Value, ReadFault>
    ensures { Gives (λ held. held) result (value_of (token_of token.entry)) }
{
    match token {
        Token::String(text) => Ok(base_types::Value::text(alloc, text)?),
        Token::Number(text) => {
            let number = integer_in_text(text).ok_or(ReadFault::Bad)?;
            Ok(base_types::Value::Number(number))
        }
        _ => Err(ReadFault::Bad),
    }
}

pub(crate) fn value_of(
    alloc: Global,
    reader: &mut Reader<'_>,
) -> Result<base_types::Value, ReadFault>
    ensures { (n : ℕ) → Takes (λ held. held) result (next_in value_in n reader.old) reader.new }
{
    match reader.next() {
        Some(token) => value_with(alloc, token),
        None => Err(ReadFault::Bad),
    }
}

/// What a list is made of.
pub(crate) trait Part: Sized + Drop {
    /// What the logic sees of it.
    ghost Seen: { Type 0 };

    ghost seen: { Self → Seen };

    ghost read_in: { Data → Option Seen };

    /// How deep lists nest in it, at most.
    ghost levels: { ℕ };

    fn read(alloc: Global, reader: &mut Reader<'_>) -> Result<Self, ReadFault>
        ensures { (n : ℕ) → levels ≤ n → Takes seen result
            (next_in read_in n reader.old) reader.new };
}

/// The bytes as a text. `Bad` if they are not UTF-8.
pub(crate) fn utf8_of(bytes: &[u8]) -> Result<&str, ReadFault>
    ensures { MatchResult result (λ text. (text.now ≡ bytes.now) × (is_utf8 bytes.now ≡ true))
        (λ e. Fails e (json_of bytes.now)) }
{
    match std::str::from_utf8(bytes) {
        Ok(text) => Ok(text),
        Err(_) => Err(ReadFault::Bad),
    }
}

/// What the bytes are a text of.
pub(crate) fn read_text<P: Part>(
    alloc: Global,
    scratch: &mut Scratch,
    bytes: &[u8],
) -> Result<P, ReadFault>
    requires { P.levels ≤ 127 }
    ensures { Gives P.seen result (text_in P.read_in bytes.now) }
{
    let text = utf8_of(bytes)?;
    let mut reader = Reader::new(text, scratch)?;
    let part = P::read(alloc, &mut reader)?;
    match reader.next() {
        None => Ok(part),
        Some(_) => Err(ReadFault::Bad),
    }
}

/// These parts, and then those up to the end of a list.
fn rest_of<P: Part>(
    alloc: Global,
    reader: &mut Reader<'_>,
    front: Vec<P>,
) -> Result<Vec<P>, ReadFault>
    ensures { (n : ℕ) → P.levels ≤ n → Takes (λ parts. map P.seen parts.items) result
        (fronted (map P.seen front.items) (rest_in (all_in P.read_in) n reader.old)) reader.new }
{
    let mut parts = front;
    'parts: while !reader.take_end_array() {
        let part = P::read(alloc, reader)?;
        parts.push(part)?;
    }
    Ok(parts)
}

/// The parts up to the end of a list.
pub(crate) fn others_of<P: Part>(
    alloc: Global,
    reader: &mut Reader<'_>,
) -> Result<Vec<P>, ReadFault>
    ensures { (n : ℕ) → P.levels ≤ n → Takes (λ parts. map P.seen parts.items) result
        (rest_in (all_in P.read_in) n reader.old) reader.new }
{
    rest_of(alloc, reader, Vec::new(alloc))
}

/// The parts of a list.
pub(crate) fn list_of<P: Part>(alloc: Global, reader: &mut Reader<'_>) -> Result<Vec<P>, ReadFault>
    ensures { (n : ℕ) → suc P.levels ≤ n → Takes (λ parts. map P.seen parts.items) result
        (next_in (list_in P.read_in) n reader.old) reader.new }
{
    open_list(reader)?;
    others_of(alloc, reader)
}

/// Pairs of a site and a count.
fn site_pairs_of(alloc: Global, reader: &mut Reader<'_>) -> Result<SitePairs, ReadFault>
    ensures { (n : ℕ) → 2 ≤ n → Takes (λ pairs. pairs.items) result
        (next_in (list_in pair_in) n reader.old) reader.new }
{
    open_list(reader)?;
    let mut pairs = SitePairs::new(alloc);
    'pairs: while !reader.take_end_array() {
        let pair = pair_of(reader)?;
        pairs.push(pair)?;
    }
    Ok(pairs)
}

/// The state vector that pairs are.
fn seen_with(pairs: SitePairs) -> Result<StateVector, ReadFault>
    ensures { Gives (λ seen. seen) result
        (if is_vector pairs.items then Some pairs.items else None) }
{
    Ok(StateVector::from_site_pairs(pairs)?)
}

pub(crate) fn seen_of(alloc: Global, reader: &mut Reader<'_>) -> Result<StateVector, ReadFault>
    ensures { (n : ℕ) → 2 ≤ n → Takes (λ seen. seen) result
        (next_in seen_in n reader.old) reader.new }
{
    let pairs = site_pairs_of(alloc, reader)?;
    seen_with(pairs)
}

impl Part for Seq {
    ghost Seen = { ℕ };

    ghost seen = { λ seq. seq.0 };

    ghost read_in = { whole_in 1 MAX_SEQ };

    ghost levels = { 0 };

    fn read(_alloc: Global, reader: &mut Reader<'_>) -> Result<Seq, ReadFault> {
        Ok(Seq(whole_of(reader, 1, MAX_SEQ)?))
    }
}

impl Part for OpName {
    ghost Seen = { ℕ × ℕ };

    ghost seen = { λ name. name };

    ghost read_in = { name_in };

    ghost levels = { 1 };

    fn read(_alloc: Global, reader: &mut Reader<'_>) -> Result<OpName, ReadFault> {
        name_of(reader)
    }
}

/// The version identifier that names are.
fn id_with(names: Vec<OpName>) -> Result<VersionId, ReadFault>
    ensures { Gives (λ id. id) result (if names_rise names.items then Some names.items else None) }
{
    Ok(VersionId::from_vec(names)?)
}

pub(crate) fn id_of(alloc: Global, reader: &mut Reader<'_>) -> Result<VersionId, ReadFault>
    ensures { (n : ℕ) → 2 ≤ n → Takes (λ id. id) result (next_in id_in n reader.old) reader.new }
{
    let names: Vec<OpName> = list_of(alloc, reader)?;
    id_with(names)
}

/// A key with its value.
impl Part for (Key, base_types::Value) {
    ghost Seen = { Attr };

    ghost seen = { λ attr. attr };

    ghost read_in = { attr_in };

    ghost levels = { 1 };

    fn read(alloc: Global, reader: &mut Reader<'_>) -> Result<(Key, base_types::Value), ReadFault> {
        open_list(reader)?;
        let key = key_of(alloc, reader)?;
        let held = value_of(alloc, reader)?;
        close_list(reader)?;
        Ok((key, held))
    }
}

/// The attributes of a creation that pairs are.
fn attrs_with(pairs: Vec<(Key, base_types::Value)>) -> Result<Attrs, ReadFault>
    ensures { Gives (λ attrs. attrs) result
        (if are_attrs pairs.items then Some pairs.items else None) }
{
    Attrs::from_pairs(pairs).map_err(|_| ReadFault::Bad)
}

pub(crate) fn attrs_of(alloc: Global, reader: &mut Reader<'_>) -> Result<Attrs, ReadFault>
    ensures { (n : ℕ) → 2 ≤ n → Takes (λ attrs. attrs) result
        (next_in attrs_in n reader.old) reader.new }
{
    let pairs: Vec<(Key, base_types::Value)> = list_of(alloc, reader)?;
    attrs_with(pairs)
}

/// The attributes of a put that pairs are.
fn pairs_with(pairs: Vec<(Key, base_types::Value)>) -> Result<Pairs, ReadFault>
    ensures { Gives (λ given. given) result
        (if are_pairs pairs.items then Some pairs.items else None) }
{
    Pairs::from_pairs(pairs).map_err(|_| ReadFault::Bad)
}

/// The pairs of a list after its first one.
fn other_pairs_of(
    alloc: Global,
    reader: &mut Reader<'_>,
    first: (Key, base_types::Value),
) -> Result<Vec<(Key, base_types::Value)>, ReadFault>
    ensures { (n : ℕ) → 1 ≤ n → Takes (λ pairs. pairs.items) result
        (fronted (first ∷ []) (rest_in (all_in attr_in) n reader.old)) reader.new }
{
    let mut front = Vec::new(alloc);
    front.push(first)?;
    rest_of(alloc, reader, front)
}

pub(crate) fn pairs_of(alloc: Global, reader: &mut Reader<'_>) -> Result<Pairs, ReadFault>
    ensures { (n : ℕ) → 2 ≤ n → Takes (λ pairs. pairs) result
        (next_in pairs_in n reader.old) reader.new }
{
    open_list(reader)?;
    let (key, held) = Part::read(alloc, reader)?;
    if reader.take_end_array() {
        return Ok(Pairs::one(key, held));
    }
    let pairs = other_pairs_of(alloc, reader, (key, held))?;
    pairs_with(pairs)
}
