//! Requests as text.

ghost use Rattle.std.specs.Prelude.{◌≡◌, ◌≤◌, ◌++◌, length, IfOk, OnOk, string_bytes};
ghost use Rattle.serde_json.specs.Written.{compact_text};
ghost use Rattle.wire.specs.declared.request.Request.TheVariants.{Back, Pull};
ghost use Rattle.wire.specs.declared.request.TheConstants.{MAX_REQUEST_LEN};
ghost use Rattle.wire.specs.Form.{IsRequest, IsRequestText};
ghost use Rattle.wire.specs.steps.Forms.{request_form};

use super::operation::write_operation;
use super::part::{Written, compact};
use crate::request::Request;
use base_types::{NoMemory, RoomName};
use std::alloc::Global;

impl Written for Request {
    ghost form = { request_form };

    fn write(&self, alloc: Global, text: &mut String) -> Result<(), NoMemory> {
        match self {
            Request::Join { room } => ("join", room.text()).write(alloc, text),
            Request::Back { room, site } => write_back(room, *site, alloc, text),
            Request::Change { seq, seen, body } => write_operation(seq, seen, body, alloc, text),
            Request::Show { object } => ("show", *object).write(alloc, text),
            Request::List { from } => ("list", *from).write(alloc, text),
            Request::Pull { from, waits } => write_pull(*from, *waits, alloc, text),
            Request::Leave => ("leave",).write(alloc, text),
        }
    }
}

/// Puts a request to enter a room again behind a text.
fn write_back(room: &RoomName, site: u32, alloc: Global, text: &mut String) -> Result<(), NoMemory>
    ensures { OnOk result (string_bytes text.new
        ≡ string_bytes text.old ++ compact_text (request_form (Back room.now site))) }
{
    ("back", room.text(), site).write(alloc, text)
}

/// Puts a request for a page of the record behind a text.
fn write_pull(from: u32, waits: bool, alloc: Global, text: &mut String) -> Result<(), NoMemory>
    ensures { OnOk result (string_bytes text.new
        ≡ string_bytes text.old ++ compact_text (request_form (Pull from waits))) }
{
    if waits {
        ("wait", from).write(alloc, text)
    } else {
        ("pull", from).write(alloc, text)
    }
}

/// The compact text of a request: its form without white space. `read_request` reads it back if the
/// request's parts are in range and the text has at most 16,384 bytes. Linear in the text.
///
/// # Errors
///
/// `NoMemory` if an allocation failed.
pub fn write_request(alloc: Global, request: &Request) -> Result<String, NoMemory>
    ensures text { IfOk result (λ text. string_bytes text
        ≡ compact_text (request_form request.now)) }
    ensures is_read { IfOk result (λ text. IsRequest request.now
        → length (string_bytes text) ≤ MAX_REQUEST_LEN
        → IsRequestText (string_bytes text) request.now) }
{
    compact(alloc, request)
}
