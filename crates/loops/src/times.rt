//! The times of a line, in milliseconds since the loops began.

ghost use Rattle.std.specs.Prelude.{◌≡◌};
ghost use Rattle.loops.specs.steps.Overdue.{overdue, passed, passed_limit, patience};

use std::time::{Clock, Duration, Instant};

/// How long a head may take.
pub(crate) const OPENING_MILLIS: u64 = 10_000;

/// How long a message is held.
pub(crate) const HELD_MILLIS: u64 = 25_000;

/// How long the stream may take nothing of what waits, and how long a connection that is over may
/// wait for what it reports to be kept.
pub(crate) const STALLED_MILLIS: u64 = 30_000;

/// The same while all lines together hold too much.
pub(crate) const CROWDED_MILLIS: u64 = 1_000;

/// How long the end of a stream is awaited.
pub(crate) const LINGER_MILLIS: u64 = 2_000;

/// How long lines may take to end once the server goes away.
pub(crate) const AWAY_MILLIS: u64 = 10_000;

/// How often a loop looks at all its lines.
pub(crate) const SWEEP_MILLIS: u64 = 1_000;

/// The time since then in milliseconds. If the clock fails, it stands still.
pub(crate) fn millis_since(rt: &impl Clock, began: Instant, before: u64) -> u64 {
    match began.elapsed(rt) {
        Ok(passed) => before.max(millis_of(passed)),
        Err(_) => before,
    }
}

/// A time in milliseconds.
pub(crate) fn millis_of(time: Duration) -> u64 {
    time.as_secs()
        .saturating_mul(1_000)
        .saturating_add(u64::from(time.subsec_millis()))
}

/// Returns whether so much time has passed since then.
pub(crate) fn has_passed(now: u64, since: u64, limit: u64) -> bool
    ensures { result ≡ passed now since limit }
{
    since <= now && now - since >= limit
}

/// Returns whether so much time has passed since then, if there is a limit.
pub(crate) fn is_late(now: u64, since: u64, limit: Option<u64>) -> bool
    ensures { result ≡ passed_limit now since limit }
{
    match limit {
        Some(limit) => has_passed(now, since, limit),
        None => false,
    }
}

/// How long lines are waited for.
#[derive(Clone, Copy, Debug)]
pub(crate) struct Patience {
    /// How long a client may be silent; `None` for no limit.
    idle: Option<u64>,
    /// How long the stream may take nothing of what waits.
    stall: u64,
}

impl Patience {
    /// How long lines are waited for, where a client may be silent for so long. `is_crowded` says
    /// that all lines together hold too much.
    pub(crate) fn new(idle: Option<u64>, is_crowded: bool) -> Patience
        ensures { result ≡ patience idle is_crowded }
    {
        let stall = if is_crowded {
            CROWDED_MILLIS
        } else {
            idle.unwrap_or(STALLED_MILLIS).min(STALLED_MILLIS)
        };
        Patience { idle, stall }
    }
}

/// When things happened on a line.
#[derive(Clone, Copy, Debug)]
pub(crate) struct Times {
    /// Its stage began.
    pub(crate) began: u64,
    /// The client was last heard, or its held message was answered.
    pub(crate) heard: u64,
    /// The stream last took bytes, or nothing waited.
    pub(crate) sent: u64,
    /// The message that is held was heard.
    pub(crate) held: u64,
}

impl Times {
    /// The times of a new line.
    pub(crate) fn new(now: u64) -> Times {
        Times {
            began: now,
            heard: now,
            sent: now,
            held: now,
        }
    }
}

/// What is awaited on a line.
#[derive(Clone, Copy, Debug, PartialEq, Eq)]
pub(crate) enum Phase {
    /// The head of the request.
    Opening,
    /// Messages.
    Open {
        /// A message is held. This excuses silence.
        is_held: bool,
    },
    /// That what the frames report is kept. Nothing more is taken from the client.
    Over,
    /// That the stream takes what waits.
    Leaving,
    /// The end of the stream.
    Lingering,
}

/// Returns whether a line has taken too long.
pub(crate) fn is_overdue(
    phase: Phase,
    times: Times,
    has_output: bool,
    patience: Patience,
    now: u64,
) -> bool
    ensures { result ≡ overdue phase times has_output patience now }
{
    match phase {
        Phase::Opening => has_passed(now, times.began, OPENING_MILLIS),
        Phase::Open { is_held } => {
            !is_held && is_late(now, times.heard, patience.idle)
                || has_output && has_passed(now, times.sent, patience.stall)
        }
        Phase::Over => has_passed(now, times.heard, patience.stall),
        Phase::Leaving => has_passed(now, times.sent, patience.stall),
        Phase::Lingering => has_passed(now, times.began, LINGER_MILLIS),
    }
}
