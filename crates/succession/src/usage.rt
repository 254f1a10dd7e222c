//! How much of a room's limits is used.

ghost use Rattle.std.specs.Prelude.{◌≡◌, ◌≤◌, ◌<◌, ◌+◌, ◌*◌};
ghost use Rattle.rules.specs.Records.{sites};
ghost use Rattle.succession.specs.Usage.{has_quarter, is_roomy};
ghost use Rattle.succession.specs.steps.Usage.{is_nearly_full};

use room_core::RoomState;

/// The least count that is at least nine tenths of a limit.
pub fn nine_tenths(limit: u32) -> u64
    ensures reached { limit * 9 ≤ result * 10 }
    ensures least { result * 10 < limit * 9 + 10 }
{
    (u64::from(limit) * 9).div_ceil(10)
}

/// The greatest count that is at most three quarters of a limit.
fn three_quarters(limit: u32) -> u64
    ensures within { result * 4 ≤ limit * 3 }
    ensures greatest { limit * 3 < result * 4 + 4 }
{
    u64::from(limit) * 3 / 4
}

/// Returns whether the room has used nine tenths of its entries, its joins or its objects. Constant
/// time.
pub fn is_nearly_full(room: &RoomState) -> bool
    ensures { result ≡ is_nearly_full room.now.room }
{
    let limits = room.limits();
    room.entries().len() as u64 >= nine_tenths(limits.entries())
        || u64::from(room.sites()) >= nine_tenths(limits.joins())
        || u64::from(room.count_objects()) >= nine_tenths(limits.objects())
}

/// Returns whether the room has a quarter left of its entries, its joins and its objects.
pub(crate) fn is_roomy(room: &RoomState) -> bool
    ensures { result ≡ is_roomy room.now.room }
{
    let limits = room.limits();
    room.entries().len() as u64 <= three_quarters(limits.entries())
        && u64::from(room.sites()) <= three_quarters(limits.joins())
        && u64::from(room.count_objects()) <= three_quarters(limits.objects())
}

/// Returns whether a quarter of the room's joins is left once so many sessions more have joined it.
pub fn has_joins_for(room: &RoomState, sessions: usize) -> bool
    ensures { result ≡ has_quarter room.now.room.limits.joins
        (sites room.now.room.entries + sessions) }
{
    let joined = u64::from(room.sites()).saturating_add(sessions as u64);
    joined <= three_quarters(room.limits().joins())
}
