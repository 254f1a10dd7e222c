//! Requests from JSON.

ghost use Rattle.std.specs.Prelude.{◌≡◌, ◌≤◌, ℕ, length, IfOk, IsErrOf, Some, None};
ghost use Rattle.wire.specs.declared.request.Request.{Request as AnyRequest};
ghost use Rattle.wire.specs.declared.request.TheConstants.{MAX_REQUEST_LEN};
ghost use Rattle.wire.specs.Form.{IsRequestText};
ghost use Rattle.wire_reader.specs.steps.Reading.{Gives};
ghost use Rattle.wire_reader.specs.steps.Requests.{join_at, back_at, change_at, show_at, list_at, pull_at, leave_at, request_of};
ghost use Rattle.wire_reader.specs.steps.Reads.{request_read};
ghost use Rattle.wire_reader.specs.steps.Streams.{rest_in, Takes};

use crate::body::operation_of;
use crate::compact::read_compact;
use crate::fault::ReadFault;
use crate::part::{Part, name_of, read_text, room_of, utf8_of};
use crate::plain_text::plain_text;
use crate::token::{Seq, close_list, whole_of, word_of};
use base_types::MAX_SITE;
use json::{Reader, Scratch};
use memchr::memchr_iter;
use std::alloc::Global;
use wire::{MAX_FROM, MAX_REQUEST_LEN, Request};

/// The front of a message that tells whether it is rewritten. A shorter message is not.
const FRONT_LEN: usize = 128;

/// Where the front has fewer escapes, the JSON reader takes less time than the rewriting.
const MIN_ESCAPES: usize = 12;

fn join_of(alloc: Global, reader: &mut Reader<'_>) -> Result<Request, ReadFault>
    ensures { (n : ℕ) → Takes (λ request. request) result
        (rest_in join_at n reader.old) reader.new }
{
    let room = room_of(alloc, reader)?;
    close_list(reader)?;
    Ok(Request::Join { room })
}

fn back_of(alloc: Global, reader: &mut Reader<'_>) -> Result<Request, ReadFault>
    ensures { (n : ℕ) → Takes (λ request. request) result
        (rest_in back_at n reader.old) reader.new }
{
    let room = room_of(alloc, reader)?;
    let site = whole_of(reader, 1, MAX_SITE)?;
    close_list(reader)?;
    Ok(Request::Back { room, site })
}

fn change_of(alloc: Global, word: &str, reader: &mut Reader<'_>) -> Result<Request, ReadFault>
    ensures { (n : ℕ) → 2 ≤ n → Takes (λ request. request) result
        (rest_in (change_at word.now) n reader.old) reader.new }
{
    let (Seq(seq), seen, body) = operation_of(alloc, word, reader)?;
    Ok(Request::Change { seq, seen, body })
}

fn show_of(reader: &mut Reader<'_>) -> Result<Request, ReadFault>
    ensures { (n : ℕ) → 1 ≤ n → Takes (λ request. request) result
        (rest_in show_at n reader.old) reader.new }
{
    let object = name_of(reader)?;
    close_list(reader)?;
    Ok(Request::Show { object })
}

fn list_of(reader: &mut Reader<'_>) -> Result<Request, ReadFault>
    ensures { (n : ℕ) → Takes (λ request. request) result
        (rest_in list_at n reader.old) reader.new }
{
    let from = whole_of(reader, 0, MAX_FROM)?;
    close_list(reader)?;
    Ok(Request::List { from })
}

fn pull_of(reader: &mut Reader<'_>, waits: bool) -> Result<Request, ReadFault>
    ensures { (n : ℕ) → Takes (λ request. request) result
        (rest_in (pull_at waits) n reader.old) reader.new }
{
    let from = whole_of(reader, 0, MAX_FROM)?;
    close_list(reader)?;
    Ok(Request::Pull { from, waits })
}

fn leave_of(reader: &mut Reader<'_>) -> Result<Request, ReadFault>
    ensures { (n : ℕ) → Takes (λ request. request) result
        (rest_in leave_at n reader.old) reader.new }
{
    close_list(reader)?;
    Ok(Request::Leave)
}

impl Part for Request {
    ghost Seen = { AnyRequest };

    ghost seen = { λ request. request };

    ghost read_in = { request_of };

    ghost levels = { 3 };

    fn read(alloc: Global, reader: &mut Reader<'_>) -> Result<Request, ReadFault> {
        let word = word_of(reader)?;
        match word {
            "join" => join_of(alloc, reader),
            "back" => back_of(alloc, reader),
            "show" => show_of(reader),
            "list" => list_of(reader),
            "pull" => pull_of(reader, false),
            "wait" => pull_of(reader, true),
            "leave" => leave_of(reader),
            _ => change_of(alloc, word, reader),
        }
    }
}

/// Reads a request in compact text.
fn compact_in_bytes(alloc: Global, bytes: &[u8]) -> Result<Request, ReadFault>
    requires { length bytes.now ≤ MAX_REQUEST_LEN }
    ensures { IfOk result (λ request. request_read bytes.now ≡ Some request) }
{
    read_compact(alloc, bytes)
}

/// Returns whether the message has many escapes, as its front tells.
fn has_many_escapes(bytes: &[u8]) -> bool {
    bytes.len() >= FRONT_LEN && memchr_iter(b'\\', &bytes[..FRONT_LEN]).count() >= MIN_ESCAPES
}

/// Reads a request from the plain text of its message. `Bad` also where there is none, or where it
/// is the message itself.
fn plain_in_bytes(alloc: Global, bytes: &[u8]) -> Result<Request, ReadFault>
    requires { length bytes.now ≤ MAX_REQUEST_LEN }
    ensures { IfOk result (λ request. request_read bytes.now ≡ Some request) }
{
    if !has_many_escapes(bytes) {
        return Err(ReadFault::Bad);
    }
    utf8_of(bytes)?;
    let text = plain_text(alloc, bytes)?;
    if bytes.len() <= text.len() {
        return Err(ReadFault::Bad);
    }
    compact_in_bytes(alloc, &text)
}

/// Reads a request that is not compact text.
#[tactic(auto, unfolding(crate::specs::steps::Reads::request_read))]
fn other_in_bytes(alloc: Global, scratch: &mut Scratch, bytes: &[u8]) -> Result<Request, ReadFault>
    requires { length bytes.now ≤ MAX_REQUEST_LEN }
    ensures { Gives (λ request. request) result (request_read bytes.now) }
{
    match plain_in_bytes(alloc, bytes) {
        Ok(request) => Ok(request),
        Err(ReadFault::Bad) => read_text(alloc, scratch, bytes),
        Err(ReadFault::NoMemory) => Err(ReadFault::NoMemory),
    }
}

/// Reads a request. Most are compact text, or have a plain text that is: these need no JSON reader.
#[tactic(auto, unfolding(crate::specs::steps::Reads::request_read))]
fn request_in_bytes(
    alloc: Global,
    scratch: &mut Scratch,
    bytes: &[u8],
) -> Result<Request, ReadFault>
    ensures { Gives (λ request. request) result (request_read bytes.now) }
{
    if bytes.len() > MAX_REQUEST_LEN {
        return Err(ReadFault::Bad);
    }
    match compact_in_bytes(alloc, bytes) {
        Ok(request) => Ok(request),
        Err(ReadFault::Bad) => other_in_bytes(alloc, scratch, bytes),
        Err(ReadFault::NoMemory) => Err(ReadFault::NoMemory),
    }
}

/// Reads a request from bytes: at most 16,384 bytes of UTF-8 that are one JSON value, a form of the
/// request. Linear in the bytes. Nothing that the scratch holds counts. A caller that reads many
/// requests should keep it between them, because a new one costs as much as a short request.
///
/// # Errors
///
/// - `Bad` if they are not such a text.
/// - `NoMemory` if an allocation failed.
pub fn read_request(
    alloc: Global,
    scratch: &mut Scratch,
    bytes: &[u8],
) -> Result<Request, ReadFault>
    ensures ok { IfOk result (IsRequestText bytes.now) }
    ensures bad { IsErrOf result ReadFault.Bad → (q : AnyRequest) → ¬ IsRequestText bytes.now q }
    ensures value { IfOk result (λ request. request_read bytes.now ≡ Some request) }
    ensures none { IsErrOf result ReadFault.Bad → request_read bytes.now ≡ None }
{
    request_in_bytes(alloc, scratch, bytes)
}
