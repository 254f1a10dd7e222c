//! Operations as text.

ghost use Rattle.std.specs.Prelude.{◌≡◌, ◌++◌, OnOk, string_bytes};
ghost use Rattle.serde_json.specs.Written.{compact_text};
ghost use Rattle.rules.specs.declared.history.Body.TheVariants.{New};
ghost use Rattle.wire.specs.Form.{body_form, operation_form};

use super::part::Written;
use base_types::{Kind, NoMemory, StateVector};
use rules::{Attrs, Body};
use std::alloc::Global;

/// Puts an operation behind a text: its name or its number, what its author had seen, and what it
/// does.
pub(super) fn write_operation<H: Written>(
    head: &H,
    seen: &StateVector,
    body: &Body,
    alloc: Global,
    text: &mut String,
) -> Result<(), NoMemory>
    ensures { let form = operation_form (H.form head.now) seen.now (body_form body.now) in OnOk
        result (string_bytes text.new ≡ string_bytes text.old ++ compact_text form) }
{
    match body {
        Body::New { kind, attrs } => write_new(head, seen, (kind, attrs), alloc, text),
        Body::Put {
            object,
            version,
            pairs,
        } => ("put", head, seen, *object, version, pairs.pairs()).write(alloc, text),
        Body::DropVersion { object, version } => {
            ("drop", head, seen, *object, version).write(alloc, text)
        }
    }
}

/// Puts a creation behind a text: its name or its number, what its author had seen, and the new
/// object's kind and attributes.
fn write_new<H: Written>(
    head: &H,
    seen: &StateVector,
    new: (&Kind, &Attrs),
    alloc: Global,
    text: &mut String,
) -> Result<(), NoMemory>
    ensures { let form = operation_form (H.form head.now) seen.now
        (body_form (New new.entry.0.now new.entry.1.now)) in OnOk
        result (string_bytes text.new ≡ string_bytes text.old ++ compact_text form) }
{
    let (kind, attrs) = new;
    ("new", head, seen, kind, attrs.pairs()).write(alloc, text)
}
