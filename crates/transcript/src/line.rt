//! A line of a transcript.

ghost use Rattle.std.specs.Prelude.{◌≡◌, ◌≤◌};
ghost use Rattle.wire_reader.specs.steps.Reading.{Gives};
ghost use Rattle.rules.specs.declared.limits.TheConstants.Limits.{MAX_ENTRIES};
ghost use Rattle.wire.specs.Replies.{at_of};
ghost use Rattle.transcript.specs.Lines.{entries_after, is_join_request, is_joined};
ghost use Rattle.transcript.specs.Lines.{is_returned, is_answer, go_together};
ghost use Rattle.transcript.specs.steps.Reads.{line_with};
ghost use Rattle.transcript.specs.steps.Reads.{line_read};

use std::alloc::Global;
use wire::{Reply, Request};
use wire_reader::{ReadFault, read_exchange};

/// A request of a site, and the reply to it.
#[derive(Drop)]
pub struct TranscriptLine {
    /// The site, from 1 to 256. For a join it is the site that joined, and for a back the site that
    /// returned.
    pub site: u32,
    /// What the site asked.
    pub request: Request,
    /// What the room replied.
    pub reply: Reply,
}

/// Returns whether the request is a join.
pub fn is_join_request(request: &Request) -> bool
    ensures { result ≡ is_join_request request.now }
{
    matches!(request, Request::Join { .. })
}

/// Returns whether the reply lets a new site in.
fn is_joined(reply: &Reply) -> bool
    ensures { result ≡ is_joined reply.now }
{
    matches!(reply, Reply::Joined { .. })
}

/// Returns whether the reply lets a site in again.
fn is_returned(reply: &Reply) -> bool
    ensures { result ≡ is_returned reply.now }
{
    matches!(reply, Reply::Returned { .. })
}

/// Returns whether a room may give this reply to a site that is in it. It is not `back`, and no
/// refusal by a session or of a back.
fn is_answer(reply: &Reply) -> bool
    ensures { result ≡ is_answer reply.now }
{
    match reply {
        Reply::Returned { .. } => false,
        Reply::No { refusal, .. } => !refusal.is_by_session() && !refusal.is_of_back(),
        _ => true,
    }
}

/// Returns whether this request of the site and this reply may stand in one line.
fn go_together(site: u32, request: &Request, reply: &Reply) -> bool
    ensures { result ≡ go_together site request.now reply.now }
{
    match request {
        Request::Join { .. } => is_joined(reply),
        Request::Back { site: asked, .. } => *asked == site && is_returned(reply),
        _ => is_answer(reply),
    }
}

/// The number of entries after the call, as the reply reports it.
pub(crate) fn entries_after(reply: &Reply) -> u32
    requires { at_of reply.now ≤ MAX_ENTRIES }
    ensures { result ≡ entries_after reply.now }
{
    if reply.adds() {
        reply.at() + 1
    } else {
        reply.at()
    }
}

/// The line of these three values. `Bad` if request and reply may not stand together.
fn line_with(site: u32, request: Request, reply: Reply) -> Result<TranscriptLine, ReadFault>
    ensures { Gives (λ line. line) result (line_with site request reply) }
{
    let go_together = go_together(site, &request, &reply);
    let line = TranscriptLine {
        site,
        request,
        reply,
    };
    go_together.then_some(line).ok_or(ReadFault::Bad)
}

/// The line that the bytes encode: UTF-8 text of one JSON value in the form of a line. Linear in
/// the bytes. `Bad` if there is none, `NoMemory` if an allocation failed.
pub(crate) fn read_line(alloc: Global, bytes: &[u8]) -> Result<TranscriptLine, ReadFault>
    ensures { Gives (λ line. line) result (line_read bytes.now) }
{
    let (site, request, reply) = read_exchange(alloc, bytes)?;
    line_with(site, request, reply)
}
