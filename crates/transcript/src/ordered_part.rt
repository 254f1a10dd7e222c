//! Reading a transcript as far as its lines are in form and in order.

ghost use Rattle.std.specs.Prelude.{◌≡◌, IfOk};
ghost use Rattle.wire.specs.Lines.{lines_of};
ghost use Rattle.transcript.specs.steps.OrderedParts.{IsOrderedPart};
ghost use Rattle.transcript.specs.steps.Tables.{IsNextIn};

use crate::line::{TranscriptLine, read_line};
use crate::order::Order;
use base_types::NoMemory;
use record_file::first_line;
use std::alloc::Global;
use std::marker::Model;
use wire_reader::if_in_form;

/// The first lines of a transcript, and whether reading stopped before its end.
#[derive(Drop)]
pub struct OrderedPart {
    lines: Vec<TranscriptLine>,
    stopped: bool,
}

impl Model for OrderedPart {
    ghost use Rattle.transcript.specs.steps.OrderedParts.{OrderedPartView};

    ghost Value = { OrderedPartView };

    ghost view = { λ part. record { lines = part.lines.items; stopped = part.stopped } };
}

/// The line that the bytes encode, if it is in form and may come next.
fn next_line(alloc: Global, order: &Order, bytes: &[u8]) -> Result<Option<TranscriptLine>, NoMemory>
    ensures { IfOk result (IsNextIn order.now bytes.now) }
{
    let Some(line) = if_in_form(read_line(alloc, bytes))? else {
        return Ok(None);
    };
    let may_come = order.takes(&line);
    Ok(may_come.then_some(line))
}

impl OrderedPart {
    /// Reads a transcript of a record with `count` entries, up to the first line that is not in
    /// form or may not come next. Linear in the bytes and in `count`, in time and in memory.
    ///
    /// # Errors
    /// `NoMemory` if an allocation failed.
    pub fn read(alloc: Global, count: usize, transcript: &[u8]) -> Result<OrderedPart, NoMemory>
        ensures { IfOk result (IsOrderedPart count (lines_of transcript.now)) }
    {
        let mut order = Order::new(alloc, count)?;
        let mut rest = transcript;
        while !rest.is_empty() {
            let (bytes, after) = first_line(rest);
            let Some(line) = next_line(alloc, &order, bytes)? else {
                return Ok(OrderedPart {
                    lines: order.into_lines(),
                    stopped: true,
                });
            };
            order.take(line)?;
            rest = after;
        }
        Ok(OrderedPart {
            lines: order.into_lines(),
            stopped: false,
        })
    }

    /// The lines that were read, in order.
    pub fn lines(&self) -> &[TranscriptLine]
        ensures { result.now ≡ self.now.lines }
    {
        self.lines.as_slice()
    }

    /// Returns whether a line follows that is not in form or may not come next.
    pub fn is_stopped(&self) -> bool
        ensures { result ≡ self.now.stopped }
    {
        self.stopped
    }
}
