//! Whether an entry is within the ranges of the wire format. The types of its parts guarantee all
//! ranges except that of a join's site. The helpers below return nothing: each tells the proof one
//! of these guarantees.

ghost use Rattle.std.specs.Prelude.{◌≡◌, ◌↔◌, All, IsTrue, true};
ghost use Rattle.std.specs.Arc.{arc_value};
ghost use Rattle.base_types.specs.Names.{is_op_name};
ghost use Rattle.base_types.specs.Vectors.{is_vector};
ghost use Rattle.wire.specs.Form.{IsAttr, IsBody, IsEntry, IsId, IsValue};

use base_types::{Key, MAX_SITE, OpName, Value, VersionId};
use rules::{Body, Entry, Limits, Op};
use std::sync::Arc;

/// A name is in range. The calls read the type's invariant into the proof.
fn name_in_range(name: OpName)
    ensures { is_op_name name ≡ true }
{
    let _site = name.site();
    let _seq = name.seq();
}

/// Names are in range.
fn names_in_range(names: &[OpName])
    ensures { All (λ name. is_op_name name ≡ true) names.now }
{
    for name in names {
        name_in_range(*name);
    }
}

/// A version identifier is in range.
fn id_in_range(id: &VersionId)
    ensures { IsId id.now }
{
    names_in_range(id.names());
}

/// A value is in range.
fn value_in_range(value: &Value)
    ensures { IsValue value.now }
{
    match value {
        Value::Number(number) => {
            // This reads the range of the number into the proof.
            let _number = *number;
        }
        Value::Text(text) => {
            // This reads the invariant of the text into the proof.
            let _text = text.text();
        }
    }
}

/// Each attribute is in range.
fn pairs_in_range(pairs: &[(Key, Value)])
    ensures { All IsAttr pairs.now }
{
    for pair in pairs {
        // This reads the invariant of the key into the proof.
        let _key = pair.0.text();
        value_in_range(&pair.1);
    }
}

/// The body of an operation is in range.
fn body_in_range(body: &Body)
    ensures { IsBody body.now }
{
    match body {
        Body::New { kind, attrs } => {
            // This reads the invariant of the kind into the proof.
            let _kind = kind.text();
            pairs_in_range(attrs.pairs());
        }
        Body::Put {
            object,
            version,
            pairs,
        } => {
            name_in_range(*object);
            id_in_range(version);
            pairs_in_range(pairs.pairs());
        }
        Body::DropVersion { object, version } => {
            name_in_range(*object);
            id_in_range(version);
        }
    }
}

/// The parts of an operation are in range.
fn operation_in_range(op: &Op)
    ensures name { is_op_name op.now.name ≡ true }
    ensures seen { is_vector op.now.seen ≡ true }
    ensures body { IsBody op.now.body }
{
    name_in_range(op.name);
    // This reads the invariant of the vector into the proof.
    let _seen = op.seen.pairs();
    body_in_range(&op.body);
}

/// Returns whether the entry is in range. Linear in its names and attributes.
pub fn is_in_range(entry: &Entry) -> bool
    ensures { IsTrue result ↔ IsEntry entry.now }
{
    match entry {
        Entry::Join(site) => 1 <= *site && *site <= MAX_SITE,
        Entry::Next(count) => *count <= Limits::MAX_ENTRIES,
        Entry::Operation(op) => {
            operation_in_range(op);
            true
        }
    }
}

/// Returns whether all entries are in range. Linear in their names and attributes.
pub fn are_in_range(entries: &[Arc<Entry>]) -> bool
    ensures { IsTrue result ↔ All (λ entry. IsEntry (arc_value entry)) entries.now }
{
    entries.iter().all(|entry| is_in_range(entry))
}
