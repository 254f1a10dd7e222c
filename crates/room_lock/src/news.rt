//! What a room's record has beyond a prefix of it.

ghost use Rattle.std.specs.Prelude.{◌≡◌, ◌↔◌, ◌++◌, Err, IfOk, Some, map};
ghost use Rattle.std.specs.Arc.{arc_value};
ghost use Rattle.room_lock.specs.declared.fault.CallFault.TheVariants as call_fault;
ghost use Rattle.room_lock.specs.steps.Differences.{first_difference};

use crate::fault::CallFault;
use crate::prefix::Prefix;
use crate::restoring::share_from;
use crate::room::Room;
use openings::RoomHistories;
use rules::Entry;
use std::alloc::Global;
use std::marker::Model;
use std::sync::Arc;

/// What a room's record has beyond a prefix of it. Only a room under its lock gives it.
#[derive(Drop)]
pub struct News<P: RoomHistories> {
    entries: Vec<Arc<Entry>>,
    whole: Prefix<P>,
}

impl<P: RoomHistories> Model for News<P> {
    ghost use Rattle.std.specs.Prelude.{map};
    ghost use Rattle.std.specs.Arc.{arc_value};
    ghost use Rattle.room_lock.specs.steps.Views.{NewsView};

    ghost Value = { NewsView };

    ghost view = { λ news. record {
      entries = map arc_value news.entries.items;
      whole = news.whole;
    } };
}

impl<P: RoomHistories> News<P> {
    /// What the room's record has beyond a prefix of it. `Torn` if the prefix has more entries.
    pub(crate) fn of(room: &Room<P>, alloc: Global, since: &Prefix<P>) -> Result<News<P>, CallFault>
        requires { since.now.opening ≡ room.now.opening }
        ensures whole { IfOk result (λ news. news.whole
            ≡ record { opening = room.now.opening; entries = room.now.entries }) }
        ensures entries { IfOk result (λ news. since.now.entries ++ news.entries
            ≡ room.now.entries) }
        ensures torn { (place : _) → (result ≡ Err (call_fault.Torn place))
            ↔ (first_difference room.now.entries since.now.entries ≡ Some place) }
    {
        if let Some(place) = room.torn_place(since) {
            return Err(CallFault::Torn { place });
        }
        let entries = share_from(alloc, room.entries(), since.len() as usize)?;
        Ok(News {
            entries,
            whole: room.prefix(),
        })
    }

    /// The entries behind the prefix, in order.
    pub fn entries(&self) -> &[Arc<Entry>]
        ensures { map arc_value result.now ≡ self.now.entries }
    {
        self.entries.as_slice()
    }

    /// All that the room has.
    pub fn whole(&self) -> &Prefix<P>
        ensures { result.now ≡ self.now.whole }
    {
        &self.whole
    }
}
