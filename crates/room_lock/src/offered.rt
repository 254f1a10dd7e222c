//! Which rooms may be opened on demand.

ghost use Rattle.std.specs.Prelude.{◌≡◌};
ghost use Rattle.std.specs.List.{list_any};
ghost use Rattle.base_types.specs.RoomNames.{is_in_chain};
ghost use Rattle.room_lock.specs.Rooms.{is_offered};

use base_types::RoomName;

/// Which rooms may be opened on demand.
#[derive(Drop)]
pub enum Offered {
    /// Every room.
    Every,
    /// The rooms of the chains of these first rooms.
    Chains(Vec<RoomName>),
}

impl Offered {
    /// Returns whether the room of this name is one of them. Constant time for every room, and
    /// linear in the number of chains otherwise.
    pub(crate) fn has(&self, name: &RoomName) -> bool
        ensures { result ≡ is_offered self.now name.now }
    {
        match self {
            Offered::Every => true,
            Offered::Chains(firsts) => is_in_any(firsts, name),
        }
    }
}

/// Returns whether the room is of the chain of one of these first rooms.
fn is_in_any(firsts: &[RoomName], name: &RoomName) -> bool
    ensures { result ≡ list_any (λ first. is_in_chain first name.now) firsts.now }
{
    firsts.iter().any(|first| name.is_in_chain_of(first))
}
