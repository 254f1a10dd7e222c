//! What a loop knows of a socket between two reports of the system, and what a line does next.

ghost use Rattle.std.specs.Prelude.{◌≡◌};
ghost use Rattle.loops.specs.steps.Turns.{after_report, after_read, step_of};

/// Nothing more is read from a client for which more bytes wait.
pub(crate) const MAX_OUTPUT_LEN: usize = 65_536;

/// What is known of a socket. The system reports a change once, so a report is remembered until a
/// read shows that it is used up.
#[derive(Clone, Copy, Debug, PartialEq, Eq)]
pub(crate) struct Readiness {
    /// There may be bytes to read, or the end of the stream.
    pub(crate) is_readable: bool,
    /// The client sends no more. The end of the stream may have been reported with its last bytes.
    pub(crate) is_read_closed: bool,
}

impl Readiness {
    /// Nothing was reported yet. Bytes may be there.
    pub(crate) const UNKNOWN: Readiness = Readiness {
        is_readable: true,
        is_read_closed: false,
    };

    /// After a report of the system.
    pub(crate) fn report(&mut self, is_readable: bool, is_read_closed: bool)
        ensures { self.new ≡ after_report self.old is_readable is_read_closed }
    {
        self.is_readable = self.is_readable || is_readable || is_read_closed;
        self.is_read_closed = self.is_read_closed || is_read_closed;
    }

    /// After a read that gave `count` bytes, where there was room for `room`. A short read has
    /// emptied the socket, unless the end of the stream stands behind it.
    pub(crate) fn read(&mut self, count: usize, room: usize)
        ensures { self.new ≡ after_read self.old count room }
    {
        self.is_readable = count >= room || self.is_read_closed;
    }

    /// After a read that found nothing.
    pub(crate) fn found_nothing(&mut self) {
        self.is_readable = false;
    }
}

/// What a line does at its turn.
#[derive(Clone, Copy, Debug, PartialEq, Eq)]
pub(crate) enum Step {
    /// It reads.
    Read,
    /// It serves more of what was read before.
    GoOn,
    /// It waits for the socket, or for the room.
    Rest,
}

/// What a connection and its output show of what can be done.
#[derive(Clone, Copy, Debug, PartialEq, Eq)]
pub(crate) struct Load {
    /// How many bytes wait to be sent.
    pub(crate) output_len: usize,
    /// Bytes that were read may be served.
    pub(crate) is_behind: bool,
    /// Frames wait for what they report to be kept.
    pub(crate) has_waiting: bool,
    /// They may not be yet: a held message blocks, or the client waits to be let in.
    pub(crate) is_blocked: bool,
    /// Nothing more is taken from the client.
    pub(crate) is_over: bool,
    /// All lines together hold so much that nothing more is taken from clients.
    pub(crate) is_full: bool,
}

/// What a line does next.
pub(crate) fn next_step(load: Load, is_readable: bool) -> Step
    ensures { result ≡ step_of load is_readable }
{
    if load.is_over || load.is_full || load.output_len > MAX_OUTPUT_LEN {
        return Step::Rest;
    }
    if load.is_behind {
        return if load.has_waiting || load.is_blocked {
            Step::Rest
        } else {
            Step::GoOn
        };
    }
    if is_readable { Step::Read } else { Step::Rest }
}
