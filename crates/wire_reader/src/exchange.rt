//! A request of a site and the reply to it, from JSON.

ghost use Rattle.std.specs.Prelude.{◌≤◌, ℕ};
ghost use Rattle.wire_reader.specs.steps.Exchanges.{Exchange, exchange_in};
ghost use Rattle.wire_reader.specs.steps.Reading.{Gives, end_at, field_at};
ghost use Rattle.wire_reader.specs.steps.Reads.{text_in};
ghost use Rattle.wire_reader.specs.steps.Streams.{rest_in, Takes};

use crate::fault::ReadFault;
use crate::part::{Part, read_text};
use crate::token::{close_list, open_list, whole_of};
use base_types::MAX_SITE;
use json::{Reader, Scratch};
use std::alloc::Global;
use wire::{Reply, Request};

/// Two parts, and the end of the list.
fn last_two_of<A: Part, B: Part>(
    alloc: Global,
    reader: &mut Reader<'_>,
) -> Result<(A, B), ReadFault>
    ensures { (n : ℕ) → A.levels ≤ n → B.levels ≤ n
        → Takes (λ parts. (A.seen parts.0, (B.seen parts.1, tt))) result
        (rest_in (field_at A.read_in (field_at B.read_in end_at)) n reader.old) reader.new }
{
    let first = A::read(alloc, reader)?;
    let second = B::read(alloc, reader)?;
    close_list(reader)?;
    Ok((first, second))
}

/// A site, its request and the reply.
impl Part for (u32, Request, Reply) {
    ghost Seen = { Exchange };

    ghost seen = { λ exchange. (exchange.0, (exchange.1, exchange.2)) };

    ghost read_in = { exchange_in };

    ghost levels = { 6 };

    fn read(alloc: Global, reader: &mut Reader<'_>) -> Result<(u32, Request, Reply), ReadFault> {
        open_list(reader)?;
        let site = whole_of(reader, 1, MAX_SITE)?;
        let (request, reply) = last_two_of(alloc, reader)?;
        Ok((site, request, reply))
    }
}

/// Reads a site, a request of it and the reply to it: UTF-8 that is one JSON value, a list of these
/// three. Linear in the bytes.
///
/// # Errors
///
/// - `Bad` if they are not such a text, or a part is not in range.
/// - `NoMemory` if an allocation failed.
pub fn read_exchange(alloc: Global, bytes: &[u8]) -> Result<(u32, Request, Reply), ReadFault>
    ensures { Gives (λ exchange. (exchange.0, (exchange.1, exchange.2))) result
        (text_in exchange_in bytes.now) }
{
    let mut scratch = Scratch::new(alloc);
    read_text(alloc, &mut scratch, bytes)
}
