//! Where a line waits for news.

ghost use Rattle.std.specs.Prelude.{◌≡◌};
ghost use Rattle.loops.specs.steps.Places.{waiting_place};

/// The place at which a line waits: with a held message for news of the room that the session is
/// in, and with frames that are not kept for those of the room in which it was before them.
pub(crate) fn place_to_wait(
    is_held: bool,
    has_waiting: bool,
    before: Option<usize>,
    now: Option<usize>,
) -> Option<usize>
    ensures { result ≡ waiting_place is_held has_waiting before now }
{
    if is_held {
        now.or(before)
    } else if has_waiting {
        before.or(now)
    } else {
        None
    }
}
