//! The head of a request, and the responses that need no session.

ghost use Rattle.std.specs.Prelude.{◌≡◌, ◌≤◌, ◌++◌, [], All, IfOk, IfSome, IsNone, OnErr, OnOk};
ghost use Rattle.std.specs.Prelude.{is_some, length, option_map, string_bytes, take};
ghost use Rattle.httparse.specs.Spans.{IsHeaderWithin, IsRequestOf, IsRequestWithin};
ghost use Rattle.websocket.specs.Handshake.{response_bytes};
ghost use Rattle.websocket.specs.Headers.{eq_ignore_case, fields_of, header_value};
ghost use Rattle.connection.specs.Heads.{Asks, IsPageAsked, health_answer, request_line_of};
ghost use Rattle.connection.specs.Heads.{metrics_answer, page_response};
ghost use Rattle.connection.specs.declared.head.Page.{Page};
ghost use Rattle.connection.specs.declared.head.TheConstants.{MAX_HEAD_LEN};

use httparse::Status;
use httparse::spans::{EMPTY_HEADER_SPAN, HeaderSpan, RequestSpans, Span, parse_request};
use std::alloc::{AllocError, Global};
use websocket::handshake::server::{check_request, write_response};

/// A request whose head has more bytes is refused.
pub const MAX_HEAD_LEN: usize = 16_384;

/// A request with more header fields is refused.
pub const MAX_FIELDS: usize = 64;

/// The response where there is no room for one more session (RFC 9110, section 15.6.4).
pub const UNAVAILABLE: &str =
    "HTTP/1.1 503 Service Unavailable\r\nRetry-After: 5\r\nContent-Length: 0\r\nConnection: close\r\n\r\n";

/// A page for those who watch over the server.
#[derive(Clone, Copy, Debug, PartialEq, Eq)]
pub enum Page {
    /// `/health`: whether a room's file fails.
    Health,
    /// `/metrics`: what the server has counted.
    Metrics,
}

impl Page {
    /// The start of a request for the page.
    fn line(self) -> &'static str
        ensures { result.now ≡ request_line_of self }
    {
        match self {
            Page::Health => "GET /health HTTP/1.",
            Page::Metrics => "GET /metrics HTTP/1.",
        }
    }
}

/// What the bytes of a request's head ask for.
#[derive(Clone, Copy, Debug, PartialEq, Eq)]
pub enum Head {
    /// The head is not whole.
    Partial,
    /// A WebSocket. `accept_key` is the value of `Sec-WebSocket-Accept`, `target` spans the target
    /// of the request (RFC 9112, section 3.2), and the head has `len` bytes. Those behind it are
    /// frames.
    Upgrade {
        accept_key: [u8; 28],
        target: Span,
        len: usize,
    },
    /// A probe of a monitor: a `GET` of a page with no `Upgrade` field.
    Probe(Page),
    /// Nothing that is served.
    Refused,
}

/// Reads what the bytes that came ask for. The head ends with its first empty line. A head of more
/// than `MAX_HEAD_LEN` bytes or `MAX_FIELDS` fields is refused.
pub fn read_head(bytes: &[u8]) -> Head
    ensures { Asks result bytes.now }
{
    let mut spans = [EMPTY_HEADER_SPAN; MAX_FIELDS];
    match parse_request(bytes, &mut spans) {
        Ok(Status::Complete(found)) => read_found(bytes, &found, &spans),
        Ok(Status::Partial) => {
            if bytes.len() < MAX_HEAD_LEN {
                Head::Partial
            } else {
                Head::Refused
            }
        }
        Err(_) => Head::Refused,
    }
}

/// Reads what a whole head asks for.
fn read_found(bytes: &[u8], found: &RequestSpans, spans: &[HeaderSpan]) -> Head
    requires within { IsRequestWithin bytes.now spans.now found.now }
    requires complete { IsRequestOf bytes.now spans.now found.now }
    ensures { Asks result bytes.now }
{
    if found.len > MAX_HEAD_LEN {
        return Head::Refused;
    }
    match check_request(bytes, found, spans) {
        Ok(accept_key) => Head::Upgrade {
            accept_key,
            target: found.path,
            len: found.len,
        },
        Err(_) => match page_asked(bytes, &spans[..found.headers]) {
            Some(page) => Head::Probe(page),
            None => Head::Refused,
        },
    }
}

/// The page that bytes with these fields probe.
fn page_asked(bytes: &[u8], fields: &[HeaderSpan]) -> Option<Page>
    requires { All (IsHeaderWithin (length bytes.now)) fields.now }
    ensures some { IfSome result (IsPageAsked bytes.now (fields_of bytes.now fields.now)) }
    ensures none { IsNone result → (page : Page) →
        ¬ (IsPageAsked bytes.now (fields_of bytes.now fields.now) page) }
{
    if has_field(bytes, fields, b"Upgrade") {
        return None;
    }
    if bytes.starts_with(Page::Health.line().as_bytes()) {
        return Some(Page::Health);
    }
    if bytes.starts_with(Page::Metrics.line().as_bytes()) {
        return Some(Page::Metrics);
    }
    None
}

/// Returns whether a field of this name, in any case, is among these.
fn has_field(bytes: &[u8], fields: &[HeaderSpan], name: &[u8]) -> bool
    requires { All (IsHeaderWithin (length bytes.now)) fields.now }
    ensures { result ≡ is_some (header_value (fields_of bytes.now fields.now) name.now) }
{
    for field in fields {
        if is_name(field.name.of(bytes), name) {
            return true;
        }
    }
    false
}

/// Returns whether two names are equal but for the case of letters.
fn is_name(found: &[u8], name: &[u8]) -> bool
    ensures { result ≡ eq_ignore_case found.now name.now }
{
    found.eq_ignore_ascii_case(name)
}

/// Writes the response that accepts a WebSocket (RFC 6455, section 4.2.2).
///
/// # Errors
/// `AllocError` if an allocation failed, or the key is no text. The output is unchanged.
pub fn write_switching(accept_key: &[u8; 28], output: &mut Vec<u8>) -> Result<(), AllocError>
    ensures ok { OnOk result (output.new.items ≡ output.old.items
        ++ response_bytes accept_key.now []) }
    ensures err { OnErr result (output.new.items ≡ output.old.items) }
{
    match write_response(accept_key, &[], output) {
        Ok(()) => Ok(()),
        Err(_) => Err(AllocError),
    }
}

/// The response to a probe of `/health`: 200 if no room fails, and else 503 with the room's name in
/// its body.
///
/// # Errors
/// `AllocError` if an allocation failed.
pub fn health_answer(alloc: Global, failing_room: Option<&str>) -> Result<String, AllocError>
    ensures { IfOk result (λ text. string_bytes text
        ≡ health_answer (option_map (λ room. room.now) failing_room.entry)) }
{
    match failing_room {
        None => page_response(alloc, "200 OK", "text/plain", "ok\n"),
        Some(room) => {
            let body = format!(in alloc; "room {room} is not kept\n")?;
            page_response(alloc, "503 Service Unavailable", "text/plain", &body)
        }
    }
}

/// The response to a probe of `/metrics`: 200 with this body, which is in Prometheus' text format.
///
/// # Errors
/// `AllocError` if an allocation failed.
pub fn metrics_answer(alloc: Global, metrics: &str) -> Result<String, AllocError>
    ensures { IfOk result (λ text. string_bytes text ≡ metrics_answer metrics.now) }
{
    page_response(alloc, "200 OK", "text/plain; version=0.0.4", metrics)
}

/// The text of a response with this status, of this type and with this body.
fn page_response(alloc: Global, status: &str, kind: &str, body: &str) -> Result<String, AllocError>
    ensures { IfOk result (λ text. string_bytes text
        ≡ page_response status.now kind.now body.now) }
{
    let len = body.len();
    format!(in alloc;
        "HTTP/1.1 {status}\r\nContent-Type: {kind}\r\nContent-Length: {len}\r\nCache-Control: no-store\r\nConnection: close\r\n\r\n{body}"
    )
}
