//! Which sessions are in a room, and as which site.

ghost use Rattle.std.specs.Prelude.{◌≡◌, ℕ, Some, None, IfOk, OnOk, OnErr, option_map};
ghost use Rattle.world.specs.Alone.{move_of};
ghost use Rattle.world.specs.steps.State.{seat_of};
ghost use Rattle.world.specs.steps.Steps.{IsMoved};

use base_types::NoMemory;
use std::collections::BTreeMap;
use wire::Reply;

/// A session's seat: the place of its room, and its site there.
#[derive(Clone, Copy, Debug, PartialEq, Eq)]
pub(crate) struct Seat {
    pub(crate) place: usize,
    pub(crate) site: u32,
}

/// A session that asks something of the room at this place, as a site of it or to be let in.
#[derive(Clone, Copy, Debug, PartialEq, Eq)]
pub(crate) struct Asker {
    pub(crate) session: u32,
    pub(crate) place: usize,
    pub(crate) site: Option<u32>,
}

/// The seat of a session, if it has one.
#[tactic(auto, using(crate::proofs::SeatMaps::seat_of_get))]
pub(crate) fn seat_at(seats: &BTreeMap<u32, Seat>, session: u32) -> Option<Seat>
    ensures { result ≡ seat_of seats.now.entries session }
{
    seats.get(&session).copied()
}

/// Where a reply puts its session: at a site of the room, or out of it. `None` if it moves nobody.
pub(crate) fn move_of(reply: &Reply) -> Option<Option<u32>>
    ensures { result ≡ move_of reply.now }
{
    match reply {
        Reply::Joined { at: _, site } => Some(Some(*site)),
        Reply::Returned {
            at: _,
            site,
            seq: _,
        } => Some(Some(*site)),
        Reply::Left { .. } => Some(None),
        Reply::Made { .. } => None,
        Reply::Taken { .. } => None,
        Reply::Versions { .. } => None,
        Reply::Objects { .. } => None,
        Reply::Entries { .. } => None,
        Reply::Notes { .. } => None,
        Reply::Renewed { .. } => None,
        Reply::No { .. } => None,
    }
}

/// Moves a session by a reply of the room at this place.
pub(crate) fn move_seat(
    seats: &mut BTreeMap<u32, Seat>,
    session: u32,
    place: usize,
    reply: &Reply,
) -> Result<(), NoMemory>
    ensures ok { OnOk result (IsMoved seats.old.entries seats.new.entries reply.now session place) }
    ensures err { OnErr result (seats.new.entries ≡ seats.old.entries) }
{
    match move_of(reply) {
        Some(Some(site)) => {
            seats.insert(session, Seat { place, site })?;
        }
        Some(None) => {
            let _seat = seats.remove(&session);
        }
        None => {}
    }
    Ok(())
}
