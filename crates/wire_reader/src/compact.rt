//! Requests from compact text, the form in which clients mostly send them. Reading it takes a third
//! of the time of a JSON reader. Each part says that what it takes is the compact text of what it
//! gives, and that its texts are UTF-8. Nothing else is taken: no white space, no escapes, no number
//! of more than nine digits, and no requests but changes, pulls and waits.

ghost use Rattle.std.specs.Prelude.{◌≡◌, ◌+◌, ◌<◌, ◌≤◌, ◌∷◌, [], ◌++◌, codes, true, false, length, map, take, IfOk, IsTrue, MatchOption, OnOk};
ghost use Rattle.std.specs.Fmt.{decimal};
ghost use Rattle.std.specs.List.{join_by, list_all, prefix_len, AllByRecursion};
ghost use Rattle.json.specs.Print.{quoted, IsNumber};
ghost use Rattle.serde_json.specs.Data.{Data};
ghost use Rattle.serde_json.specs.Written.{compact_text};
ghost use Rattle.base_types.specs.Names.{is_op_name, is_seq};
ghost use Rattle.base_types.specs.Texts.{is_key, is_kind};
ghost use Rattle.base_types.specs.Vectors.{is_vector};
ghost use Rattle.wire.specs.Form.{attr_form, attrs_form, body_form, list_form, name_form};
ghost use Rattle.wire.specs.Form.{names_form, value_form, ArePairs, is_from, IsAttr, IsBody, IsId};
ghost use Rattle.wire.specs.Form.{AreAttrs, IsRequest, IsValue};
ghost use Rattle.wire.specs.steps.Forms.{request_form};
ghost use Rattle.wire_reader.specs.steps.Compact.{fields_text, request_word, AreUtf8};
ghost use Rattle.wire_reader.specs.steps.Compact.{IsUtf8Body, IsUtf8Request, IsUtf8Value};
ghost use Rattle.wire.specs.steps.Quoting.{is_plain_byte};

use crate::fault::ReadFault;
use base_types::{Key, Kind, MAX_SEQ, NoMemory, OpName, SitePairs, StateVector, Value, VersionId};
use rules::{Attrs, Body, Pairs};
use std::alloc::Global;
use std::marker::Model;
use wire::{MAX_FROM, Request};

/// A number with more digits is left to the JSON reader.
const MAX_SHORTER: u32 = 99_999_999;

/// How many bytes of a long text are tested together.
const TOGETHER: usize = 16;

/// The bytes of a message that are not read yet.
#[derive(Drop)]
struct Cursor<'a> {
    rest: &'a [u8],
}

impl<'a> Model for Cursor<'a> {
    ghost use Rattle.std.specs.Prelude.{ℕ, List};

    ghost Value = { List ℕ };

    ghost view = { λ cursor. cursor.rest.now };
}

impl<'a> Cursor<'a> {
    /// Takes the next byte if it is this one. Returns whether it is.
    fn take(&mut self, byte: u8) -> bool
        ensures taken { IsTrue result → self.old ≡ byte ∷ self.new }
        ensures stays { result ≡ false → self.new ≡ self.old }
    {
        match self.rest.split_first() {
            Some((first, rest)) if *first == byte => {
                self.rest = rest;
                true
            }
            _ => false,
        }
    }

    /// Takes this byte.
    fn expect(&mut self, byte: u8) -> Result<(), ReadFault>
        ensures { OnOk result (self.old ≡ byte ∷ self.new) }
    {
        if self.take(byte) {
            Ok(())
        } else {
            Err(ReadFault::Bad)
        }
    }

    /// Takes the next byte if it is a digit.
    fn digit(&mut self) -> Option<u32>
        ensures { MatchOption result (self.new ≡ self.old)
            (λ digit. (digit < 10) × (self.old ≡ (48 + digit) ∷ self.new)) }
    {
        match self.rest.split_first() {
            Some((first, rest)) if first.is_ascii_digit() => {
                self.rest = rest;
                Some(u32::from(*first - b'0'))
            }
            _ => None,
        }
    }

    /// Takes a number of at most nine digits.
    fn number(&mut self) -> Result<u32, ReadFault>
        ensures { IfOk result (λ number. self.old ≡ decimal number ++ self.new) }
    {
        let Some(mut number) = self.digit() else {
            return Err(ReadFault::Bad);
        };
        while 0 < number && number <= MAX_SHORTER {
            let Some(digit) = self.digit() else {
                return Ok(number);
            };
            number = number * 10 + digit;
        }
        Ok(number)
    }

    /// Takes a list of two numbers.
    fn pair(&mut self) -> Result<(u32, u32), ReadFault>
        ensures { IfOk result (λ pair. self.old ≡ compact_text (name_form pair) ++ self.new) }
    {
        self.expect(b'[')?;
        let first = self.number()?;
        self.expect(b',')?;
        let second = self.number()?;
        self.expect(b']')?;
        Ok((first, second))
    }

    /// Takes a text in quotes, without escapes.
    fn quoted(&mut self) -> Result<&'a [u8], ReadFault>
        ensures { IfOk result (λ text. self.old ≡ quoted text.now ++ self.new) }
    {
        self.expect(b'"')?;
        let (text, rest) = split_plain(self.rest);
        self.rest = rest;
        self.expect(b'"')?;
        Ok(text)
    }
}

/// Returns whether a byte stands for itself between quotes.
pub(crate) fn is_plain_byte(byte: u8) -> bool
    ensures { result ≡ is_plain_byte byte }
{
    0x20 <= byte && byte != b'"' && byte != b'\\'
}

/// Do all of these bytes stand for themselves between quotes? It looks at each, so a compiler can
/// test several at once.
fn are_plain(bytes: &[u8]) -> bool
    ensures { result ≡ list_all is_plain_byte bytes.now }
{
    let mut are_plain = true;
    for byte in bytes {
        are_plain &= is_plain_byte(*byte);
    }
    are_plain
}

/// As `plain_len`, one byte after the other.
fn plain_len_by_one(bytes: &[u8]) -> usize
    ensures plain { result ≡ prefix_len is_plain_byte bytes.now }
    ensures within { result ≤ length bytes.now }
{
    for (place, byte) in bytes.iter().enumerate() {
        if !is_plain_byte(*byte) {
            return place;
        }
    }
    bytes.len()
}

/// As `plain_len`, many bytes at once.
fn plain_len_by_many(bytes: &[u8]) -> usize
    ensures plain { result ≡ prefix_len is_plain_byte bytes.now }
    ensures within { result ≤ length bytes.now }
{
    let mut len = 0;
    while TOGETHER <= bytes.len() - len && are_plain(&bytes[len..len + TOGETHER]) {
        len += TOGETHER;
    }
    len + plain_len_by_one(&bytes[len..])
}

/// How many bytes at the front stand for themselves between quotes. Most texts are short. In a long
/// one this takes most of the time of reading.
fn plain_len(bytes: &[u8]) -> usize
    ensures plain { result ≡ prefix_len is_plain_byte bytes.now }
    ensures within { result ≤ length bytes.now }
{
    let len = plain_len_by_one(&bytes[..TOGETHER.min(bytes.len())]);
    if len < TOGETHER {
        return len;
    }
    len + plain_len_by_many(&bytes[len..])
}

/// The bytes at the front that stand for themselves between quotes, and those after them.
pub(crate) fn split_plain(bytes: &[u8]) -> (&[u8], &[u8])
    ensures parts { bytes.now ≡ result.0.now ++ result.1.now }
    ensures plain { list_all is_plain_byte result.0.now ≡ true }
{
    let len = plain_len(bytes);
    (&bytes[..len], &bytes[len..])
}

/// The number at the front, which may have a minus, and the bytes after it.
pub(crate) fn split_number(bytes: &[u8]) -> Result<(&[u8], &[u8]), ReadFault>
    ensures parts { IfOk result (λ parts. bytes.now ≡ parts.0.now ++ parts.1.now) }
    ensures number { IfOk result (λ parts. IsNumber parts.0.now) }
{
    let mut cursor = Cursor { rest: bytes };
    cursor.take(b'-');
    cursor.number()?;
    Ok(bytes.split_at(bytes.len() - cursor.rest.len()))
}

/// A value, after which this byte is taken.
fn followed_by<T: Drop>(value: T, byte: u8, cursor: &mut Cursor<'_>) -> Result<T, ReadFault>
    ensures value { IfOk result (λ kept. kept ≡ value) }
    ensures byte { IfOk result (λ _. cursor.old ≡ byte ∷ cursor.new) }
{
    cursor.expect(byte)?;
    Ok(value)
}

/// A value, if nothing is left to take.
fn if_at_end<T: Drop>(value: T, cursor: &Cursor<'_>) -> Result<T, ReadFault>
    ensures value { IfOk result (λ kept. kept ≡ value) }
    ensures end { IfOk result (λ _. cursor.now ≡ []) }
{
    if cursor.rest.is_empty() {
        Ok(value)
    } else {
        Err(ReadFault::Bad)
    }
}

/// What is taken of compact text.
trait Scanned: Sized + Drop {
    ghost form: { Self → Data };

    ghost IsInRange: { Self → Type 0 };

    /// Its texts are UTF-8.
    ghost HasUtf8: { Self → Type 0 };

    /// Takes a part.
    fn scan(alloc: Global, cursor: &mut Cursor<'_>) -> Result<Self, ReadFault>
        ensures text { IfOk result (λ part. cursor.old ≡ compact_text (form part) ++ cursor.new) }
        ensures range { IfOk result IsInRange }
        ensures utf8 { IfOk result HasUtf8 };
}

/// Takes a comma and a part.
fn next_of<T: Scanned>(alloc: Global, cursor: &mut Cursor<'_>) -> Result<T, ReadFault>
    ensures text { IfOk result (λ part.
        cursor.old ≡ 44 ∷ (compact_text (T.form part) ++ cursor.new)) }
    ensures range { IfOk result T.IsInRange }
    ensures utf8 { IfOk result T.HasUtf8 }
{
    cursor.expect(b',')?;
    T::scan(alloc, cursor)
}

/// Takes the parts of a list after this first one, to its end.
fn rest_of<T: Scanned>(
    alloc: Global,
    cursor: &mut Cursor<'_>,
    first: T,
) -> Result<Vec<T>, ReadFault>
    requires range { T.IsInRange first }
    requires utf8 { T.HasUtf8 first }
    ensures text { IfOk result (λ parts. 91 ∷ (compact_text (T.form first) ++ cursor.old)
        ≡ compact_text (list_form (map T.form parts.items)) ++ cursor.new) }
    ensures range { IfOk result (λ parts. AllByRecursion T.IsInRange parts.items) }
    ensures utf8 { IfOk result (λ parts. AllByRecursion T.HasUtf8 parts.items) }
{
    let mut parts = Vec::new(alloc);
    parts.push(first)?;
    // Each turn takes a byte.
    'parts: for _ in 0..cursor.rest.len() {
        if cursor.take(b']') {
            return Ok(parts);
        }
        parts.push(next_of(alloc, cursor)?)?;
    }
    Err(ReadFault::Bad)
}

/// Takes a list.
fn list_of<T: Scanned>(alloc: Global, cursor: &mut Cursor<'_>) -> Result<Vec<T>, ReadFault>
    ensures text { IfOk result (λ parts.
        cursor.old ≡ compact_text (list_form (map T.form parts.items)) ++ cursor.new) }
    ensures range { IfOk result (λ parts. AllByRecursion T.IsInRange parts.items) }
    ensures utf8 { IfOk result (λ parts. AllByRecursion T.HasUtf8 parts.items) }
{
    cursor.expect(b'[')?;
    if cursor.take(b']') {
        return Ok(Vec::new(alloc));
    }
    let first = T::scan(alloc, cursor)?;
    rest_of(alloc, cursor, first)
}

impl Scanned for OpName {
    ghost form = { name_form };

    ghost IsInRange = { λ name. is_op_name name ≡ true };

    ghost HasUtf8 = { λ name. Unit {0} };

    fn scan(_alloc: Global, cursor: &mut Cursor<'_>) -> Result<OpName, ReadFault> {
        let (site, seq) = cursor.pair()?;
        OpName::new(site, seq).ok_or(ReadFault::Bad)
    }
}

/// Takes a text that is a value.
fn value_text_of(alloc: Global, cursor: &mut Cursor<'_>) -> Result<Value, ReadFault>
    ensures text { IfOk result (λ value.
        cursor.old ≡ compact_text (value_form value) ++ cursor.new) }
    ensures range { IfOk result IsValue }
    ensures utf8 { IfOk result IsUtf8Value }
{
    let bytes = cursor.quoted()?;
    let Ok(text) = std::str::from_utf8(bytes) else {
        return Err(ReadFault::Bad);
    };
    Ok(Value::text(alloc, text)?)
}

/// Takes a whole number that is a value. One below 0 has a minus, and `-0` is none.
fn integer_of(cursor: &mut Cursor<'_>) -> Result<Value, ReadFault>
    ensures text { IfOk result (λ value.
        cursor.old ≡ compact_text (value_form value) ++ cursor.new) }
    ensures range { IfOk result IsValue }
    ensures utf8 { IfOk result IsUtf8Value }
{
    if !cursor.take(b'-') {
        return Ok(Value::Number(i64::from(cursor.number()?)));
    }
    let number = cursor.number()?;
    if number == 0 {
        return Err(ReadFault::Bad);
    }
    Ok(Value::Number(-i64::from(number)))
}

/// Takes a value.
fn value_of(alloc: Global, cursor: &mut Cursor<'_>) -> Result<Value, ReadFault>
    ensures text { IfOk result (λ value.
        cursor.old ≡ compact_text (value_form value) ++ cursor.new) }
    ensures range { IfOk result IsValue }
    ensures utf8 { IfOk result IsUtf8Value }
{
    match cursor.rest.first() {
        Some(b'"') => value_text_of(alloc, cursor),
        _ => integer_of(cursor),
    }
}

/// Takes the beginning of an attribute, to the comma behind its key.
fn key_of(alloc: Global, cursor: &mut Cursor<'_>) -> Result<Key, ReadFault>
    ensures text { IfOk result (λ key. cursor.old ≡ 91 ∷ (quoted key ++ 44 ∷ cursor.new)) }
    ensures range { IfOk result (λ key. is_key key ≡ true) }
{
    cursor.expect(b'[')?;
    let key = Key::parse(alloc, cursor.quoted()?)?;
    followed_by(key, b',', cursor)
}

impl Scanned for (Key, Value) {
    ghost form = { attr_form };

    ghost IsInRange = { IsAttr };

    ghost HasUtf8 = { λ attr. IsUtf8Value attr.1 };

    fn scan(alloc: Global, cursor: &mut Cursor<'_>) -> Result<(Key, Value), ReadFault> {
        let key = key_of(alloc, cursor)?;
        let value = value_of(alloc, cursor)?;
        followed_by((key, value), b']', cursor)
    }
}

/// Takes a comma and a pair.
fn next_pair(cursor: &mut Cursor<'_>) -> Result<(u32, u32), ReadFault>
    ensures { IfOk result (λ pair.
        cursor.old ≡ 44 ∷ (compact_text (name_form pair) ++ cursor.new)) }
{
    cursor.expect(b',')?;
    cursor.pair()
}

/// Takes the pairs of a vector after those that are there, to the end of the list.
fn push_pairs(cursor: &mut Cursor<'_>, pairs: &mut SitePairs) -> Result<(), ReadFault>
    requires { 0 < length pairs.old.items }
    ensures { OnOk result
        ((91 ∷ join_by (λ pair. compact_text (name_form pair)) (44 ∷ []) pairs.old.items)
        ++ cursor.old ≡ compact_text (names_form pairs.new.items) ++ cursor.new) }
{
    // Each turn takes a byte.
    'pairs: for _ in 0..cursor.rest.len() {
        if cursor.take(b']') {
            return Ok(());
        }
        pairs.push(next_pair(cursor)?)?;
    }
    Err(ReadFault::Bad)
}

/// Takes the pairs of a vector after this first one, to the end of the list.
fn site_pairs_of(
    alloc: Global,
    cursor: &mut Cursor<'_>,
    first: (u32, u32),
) -> Result<SitePairs, ReadFault>
    ensures { IfOk result (λ pairs. 91 ∷ (compact_text (name_form first) ++ cursor.old)
        ≡ compact_text (names_form pairs.items) ++ cursor.new) }
{
    let mut pairs = SitePairs::new(alloc);
    pairs.push(first)?;
    push_pairs(cursor, &mut pairs)?;
    Ok(pairs)
}

/// Takes a state vector.
fn seen_of(alloc: Global, cursor: &mut Cursor<'_>) -> Result<StateVector, ReadFault>
    ensures text { IfOk result (λ seen.
        cursor.old ≡ compact_text (names_form seen) ++ cursor.new) }
    ensures range { IfOk result (λ seen. is_vector seen ≡ true) }
{
    cursor.expect(b'[')?;
    if cursor.take(b']') {
        return Ok(StateVector::empty(alloc));
    }
    let first = cursor.pair()?;
    let pairs = site_pairs_of(alloc, cursor, first)?;
    Ok(StateVector::from_site_pairs(pairs)?)
}

/// Takes the identifier of a version.
fn id_of(alloc: Global, cursor: &mut Cursor<'_>) -> Result<VersionId, ReadFault>
    ensures text { IfOk result (λ id. cursor.old ≡ compact_text (names_form id) ++ cursor.new) }
    ensures range { IfOk result IsId }
{
    let names = list_of(alloc, cursor)?;
    Ok(VersionId::from_vec(names)?)
}

/// Takes the attributes of a put. One pair alone takes no memory.
fn pairs_of(alloc: Global, cursor: &mut Cursor<'_>) -> Result<Pairs, ReadFault>
    ensures text { IfOk result (λ pairs.
        cursor.old ≡ compact_text (attrs_form pairs) ++ cursor.new) }
    ensures range { IfOk result ArePairs }
    ensures utf8 { IfOk result AreUtf8 }
{
    cursor.expect(b'[')?;
    let (key, value) = Scanned::scan(alloc, cursor)?;
    if cursor.take(b']') {
        return Ok(Pairs::one(key, value));
    }
    let pairs = rest_of(alloc, cursor, (key, value))?;
    Pairs::from_pairs(pairs).map_err(|_| ReadFault::Bad)
}

/// Takes the kind of a creation, and a comma.
fn kind_of(alloc: Global, cursor: &mut Cursor<'_>) -> Result<Kind, ReadFault>
    ensures text { IfOk result (λ kind. cursor.old ≡ quoted kind ++ 44 ∷ cursor.new) }
    ensures range { IfOk result (λ kind. is_kind kind ≡ true) }
{
    let kind = Kind::parse(alloc, cursor.quoted()?)?;
    followed_by(kind, b',', cursor)
}

/// Takes the attributes of a creation, and the end of its list.
fn attrs_of(alloc: Global, cursor: &mut Cursor<'_>) -> Result<Attrs, ReadFault>
    ensures text { IfOk result (λ attrs.
        cursor.old ≡ compact_text (attrs_form attrs) ++ 93 ∷ cursor.new) }
    ensures range { IfOk result AreAttrs }
    ensures utf8 { IfOk result AreUtf8 }
{
    let attrs = Attrs::from_pairs(list_of(alloc, cursor)?).map_err(|_| ReadFault::Bad)?;
    followed_by(attrs, b']', cursor)
}

/// Takes what a creation does, to the end of the list. A comma was taken before.
fn new_of(alloc: Global, cursor: &mut Cursor<'_>) -> Result<Body, ReadFault>
    ensures text { IfOk result (λ body. 44 ∷ cursor.old ≡ fields_text body ++ cursor.new) }
    ensures word { IfOk result (λ body. (body_form body).0 ≡ codes "new") }
    ensures range { IfOk result IsBody }
    ensures utf8 { IfOk result IsUtf8Body }
{
    let kind = kind_of(alloc, cursor)?;
    let attrs = attrs_of(alloc, cursor)?;
    Ok(Body::New { kind, attrs })
}

/// Takes the attributes of a put, and the end of its list.
fn last_pairs_of(alloc: Global, cursor: &mut Cursor<'_>) -> Result<Pairs, ReadFault>
    ensures text { IfOk result (λ pairs.
        cursor.old ≡ compact_text (attrs_form pairs) ++ 93 ∷ cursor.new) }
    ensures range { IfOk result ArePairs }
    ensures utf8 { IfOk result AreUtf8 }
{
    let pairs = pairs_of(alloc, cursor)?;
    followed_by(pairs, b']', cursor)
}

/// Takes what a put does, to the end of the list. A comma was taken before.
fn put_of(alloc: Global, cursor: &mut Cursor<'_>) -> Result<Body, ReadFault>
    ensures text { IfOk result (λ body. 44 ∷ cursor.old ≡ fields_text body ++ cursor.new) }
    ensures word { IfOk result (λ body. (body_form body).0 ≡ codes "put") }
    ensures range { IfOk result IsBody }
    ensures utf8 { IfOk result IsUtf8Body }
{
    let object = OpName::scan(alloc, cursor)?;
    cursor.expect(b',')?;
    let version = followed_by(id_of(alloc, cursor)?, b',', cursor)?;
    let pairs = last_pairs_of(alloc, cursor)?;
    Ok(Body::Put {
        object,
        version,
        pairs,
    })
}

/// Takes what a drop does, to the end of the list. A comma was taken before.
fn drop_of(alloc: Global, cursor: &mut Cursor<'_>) -> Result<Body, ReadFault>
    ensures text { IfOk result (λ body. 44 ∷ cursor.old ≡ fields_text body ++ cursor.new) }
    ensures word { IfOk result (λ body. (body_form body).0 ≡ codes "drop") }
    ensures range { IfOk result IsBody }
    ensures utf8 { IfOk result IsUtf8Body }
{
    let object = OpName::scan(alloc, cursor)?;
    cursor.expect(b',')?;
    let version = id_of(alloc, cursor)?;
    cursor.expect(b']')?;
    Ok(Body::DropVersion { object, version })
}

/// Takes what the operation of a word does, to the end of the list. A comma was taken before.
fn body_of(alloc: Global, word: &[u8], cursor: &mut Cursor<'_>) -> Result<Body, ReadFault>
    ensures text { IfOk result (λ body. 44 ∷ cursor.old ≡ fields_text body ++ cursor.new) }
    ensures word { IfOk result (λ body. (body_form body).0 ≡ word.now) }
    ensures range { IfOk result IsBody }
    ensures utf8 { IfOk result IsUtf8Body }
{
    match word {
        b"put" => put_of(alloc, cursor),
        b"new" => new_of(alloc, cursor),
        b"drop" => drop_of(alloc, cursor),
        _ => Err(ReadFault::Bad),
    }
}

/// Takes the number of an operation.
fn seq_of(cursor: &mut Cursor<'_>) -> Result<u32, ReadFault>
    ensures text { IfOk result (λ seq. cursor.old ≡ decimal seq ++ cursor.new) }
    ensures range { IfOk result (λ seq. is_seq seq ≡ true) }
{
    let seq = cursor.number()?;
    if 1 <= seq && seq <= MAX_SEQ {
        Ok(seq)
    } else {
        Err(ReadFault::Bad)
    }
}

/// Takes the fields of a change, to the end of the list. Its word and a comma were taken before.
fn change_of(alloc: Global, word: &[u8], cursor: &mut Cursor<'_>) -> Result<Request, ReadFault>
    ensures text { IfOk result (λ change. 91 ∷ (quoted (request_word change) ++ 44 ∷ cursor.old)
        ≡ compact_text (request_form change) ++ cursor.new) }
    ensures word { IfOk result (λ change. request_word change ≡ word.now) }
    ensures range { IfOk result IsRequest }
    ensures utf8 { IfOk result IsUtf8Request }
{
    let seq = seq_of(cursor)?;
    cursor.expect(b',')?;
    let seen = seen_of(alloc, cursor)?;
    cursor.expect(b',')?;
    let body = body_of(alloc, word, cursor)?;
    Ok(Request::Change { seq, seen, body })
}

/// Takes the place that a page begins at, and the end of the list.
fn place_of(cursor: &mut Cursor<'_>) -> Result<u32, ReadFault>
    ensures text { IfOk result (λ from. cursor.old ≡ decimal from ++ 93 ∷ cursor.new) }
    ensures range { IfOk result (λ from. is_from from ≡ true) }
{
    let from = cursor.number()?;
    cursor.expect(b']')?;
    if from <= MAX_FROM {
        Ok(from)
    } else {
        Err(ReadFault::Bad)
    }
}

/// Takes the fields of a pull, to the end of the list. Its word and a comma were taken before.
fn pull_of(cursor: &mut Cursor<'_>) -> Result<Request, ReadFault>
    ensures text { IfOk result (λ pull. 91 ∷ (quoted (request_word pull) ++ 44 ∷ cursor.old)
        ≡ compact_text (request_form pull) ++ cursor.new) }
    ensures word { IfOk result (λ pull. request_word pull ≡ codes "pull") }
    ensures range { IfOk result IsRequest }
    ensures utf8 { IfOk result IsUtf8Request }
{
    let from = place_of(cursor)?;
    Ok(Request::Pull { from, waits: false })
}

/// Takes the fields of a wait, to the end of the list. Its word and a comma were taken before.
fn wait_of(cursor: &mut Cursor<'_>) -> Result<Request, ReadFault>
    ensures text { IfOk result (λ wait. 91 ∷ (quoted (request_word wait) ++ 44 ∷ cursor.old)
        ≡ compact_text (request_form wait) ++ cursor.new) }
    ensures word { IfOk result (λ wait. request_word wait ≡ codes "wait") }
    ensures range { IfOk result IsRequest }
    ensures utf8 { IfOk result IsUtf8Request }
{
    let from = place_of(cursor)?;
    Ok(Request::Pull { from, waits: true })
}

/// Takes the fields of a request, to the end of the list. Its word and a comma were taken before.
fn fields_of(alloc: Global, word: &[u8], cursor: &mut Cursor<'_>) -> Result<Request, ReadFault>
    ensures text { IfOk result (λ request. 91 ∷ (quoted (request_word request) ++ 44 ∷ cursor.old)
        ≡ compact_text (request_form request) ++ cursor.new) }
    ensures word { IfOk result (λ request. request_word request ≡ word.now) }
    ensures range { IfOk result IsRequest }
    ensures utf8 { IfOk result IsUtf8Request }
{
    match word {
        b"pull" => pull_of(cursor),
        b"wait" => wait_of(cursor),
        _ => change_of(alloc, word, cursor),
    }
}

/// Takes a request.
fn request_of(alloc: Global, cursor: &mut Cursor<'_>) -> Result<Request, ReadFault>
    ensures text { IfOk result (λ request.
        cursor.old ≡ compact_text (request_form request) ++ cursor.new) }
    ensures range { IfOk result IsRequest }
    ensures utf8 { IfOk result IsUtf8Request }
{
    cursor.expect(b'[')?;
    let word = cursor.quoted()?;
    cursor.expect(b',')?;
    fields_of(alloc, word, cursor)
}

/// The request that a message is the compact text of. Linear in the message, as far as it is that.
///
/// # Errors
///
/// - `Bad` if it is another one: perhaps of a request of another kind, or in another form.
/// - `NoMemory` if an allocation failed.
pub(crate) fn read_compact(alloc: Global, message: &[u8]) -> Result<Request, ReadFault>
    ensures text { IfOk result (λ request. message.now ≡ compact_text (request_form request)) }
    ensures range { IfOk result IsRequest }
    ensures utf8 { IfOk result IsUtf8Request }
{
    let mut cursor = Cursor { rest: message };
    let request = request_of(alloc, &mut cursor)?;
    if_at_end(request, &cursor)
}
