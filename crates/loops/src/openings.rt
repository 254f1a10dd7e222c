//! The lines that began last, of which some have not opened.

ghost use Rattle.std.specs.Prelude.{◌≡◌, ◌<◌, ◌≤◌, ◌++◌, ◌∷◌, [], OnSome, None, drop, length};
ghost use Rattle.loops.specs.steps.Openings.{Follows};

use std::alloc::{AllocError, Global};
use std::collections::VecDeque;

/// The most lines of a loop that have not opened.
const MAX_OPENINGS: usize = 1_024;

/// A line that began.
#[derive(Clone, Copy, Debug, Drop)]
pub(crate) struct Begun {
    pub(crate) key: usize,
    pub(crate) session: u64,
}

/// The lines that began last, the oldest first.
#[derive(Drop)]
pub(crate) struct Openings {
    lines: VecDeque<Begun>,
}

impl Openings {
    /// No lines.
    pub(crate) fn new(alloc: Global) -> Result<Openings, AllocError> {
        Ok(Openings {
            lines: VecDeque::with_capacity(alloc, MAX_OPENINGS)?,
        })
    }

    /// Adds a line. Returns the line that has to open before this one, if it has not: the oldest of
    /// `MAX_OPENINGS`. Or this line, if an allocation failed.
    pub(crate) fn add(&mut self, line: Begun) -> Option<Begun>
        ensures { Follows MAX_OPENINGS line self.old.lines.items self.new.lines.items result }
    {
        let oldest = if self.lines.len() < MAX_OPENINGS {
            None
        } else {
            self.lines.pop_front()
        };
        if self.lines.push_back(line).is_err() {
            return Some(line);
        }
        oldest
    }
}
