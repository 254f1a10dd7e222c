//! Lines in order, with tables that decide in constant time whether another line may come next.

ghost use Rattle.std.specs.Prelude.{◌≡◌, ◌↔◌, ◌++◌, ◌∷◌, [], IfOk, OnOk, OnErr, IsTrue};
ghost use Rattle.transcript.specs.Lines.{IsLine};
ghost use Rattle.transcript.specs.Order.{IsNext};
ghost use Rattle.transcript.specs.steps.OrderedParts.{AreInOrder};

use crate::line::{TranscriptLine, entries_after};
use base_types::{MAX_SITE, NoMemory};
use std::alloc::Global;
use std::marker::Model;

/// The lines of a transcript so far, of a record with `count` entries.
#[derive(Drop)]
pub(crate) struct Order {
    count: usize,
    lines: Vec<TranscriptLine>,
    /// By site: the number of entries after the site's last line.
    reached: Vec<u32>,
    /// By place in the record: whether a line reports that it added this entry.
    claimed: Vec<bool>,
}

impl Model for Order {
    ghost use Rattle.transcript.specs.steps.Tables.{OrderedLines, AreTables};

    ghost Value = { OrderedLines };

    ghost view = { λ order. record { count = order.count; lines = order.lines.items } };

    ghost invariant = { λ order.
        AreTables (record { count = order.count; lines = order.lines.items })
        order.reached.items order.claimed.items };
}

impl Order {
    /// No lines yet, of a record with `count` entries. `NoMemory` if an allocation failed, or if
    /// `count + 1` overflows. Linear in `count`.
    pub(crate) fn new(alloc: Global, count: usize) -> Result<Order, NoMemory>
        ensures count { IfOk result (λ order. order.count ≡ count) }
        ensures lines { IfOk result (λ order. order.lines ≡ []) }
    {
        let places = count.checked_add(1).ok_or(NoMemory)?;
        let reached = vec![in alloc; 0u32; MAX_SITE as usize + 1]?;
        let claimed = vec![in alloc; false; places]?;
        Ok(Order {
            count,
            lines: Vec::new(alloc),
            reached,
            claimed,
        })
    }

    /// Returns whether the line may come next. Constant time.
    pub(crate) fn takes(&self, line: &TranscriptLine) -> bool
        requires { IsLine line.now }
        ensures { IsTrue result ↔ IsNext self.now.count self.now.lines line.now }
    {
        let at = line.reply.at();
        at as usize <= self.count
            && self.reached[line.site as usize] <= at
            && !(line.reply.adds() && self.claimed[at as usize])
    }

    /// Adds the next line. `NoMemory` if an allocation failed; then nothing has changed. Amortized
    /// constant time.
    pub(crate) fn take(&mut self, line: TranscriptLine) -> Result<(), NoMemory>
        requires in_form { IsLine line }
        requires next { IsNext self.old.count self.old.lines line }
        ensures count { self.new.count ≡ self.old.count }
        ensures lines { OnOk result (self.new.lines ≡ self.old.lines ++ line ∷ []) }
        ensures same { OnErr result (self.new ≡ self.old) }
    {
        let site = line.site as usize;
        let at = line.reply.at() as usize;
        let adds = line.reply.adds();
        let after = entries_after(&line.reply);
        self.lines.push(line)?;
        self.reached[site] = after;
        if adds {
            self.claimed[at] = true;
        }
        Ok(())
    }

    /// The lines, in order.
    pub(crate) fn into_lines(self) -> Vec<TranscriptLine>
        ensures lines { result.items ≡ self.lines }
        ensures order { AreInOrder self.count self.lines }
    {
        self.lines
    }
}
