//! Where chains of rooms go on.

ghost use Rattle.std.specs.Prelude.{IfOk, IfSome};
ghost use Rattle.keeper.specs.Chains.{IsLater};

use base_types::{NoMemory, RoomName};
use indexmap::IndexMap;
use std::alloc::Global;

/// The chains of which a room is open, if they have a second room, by the name of the first room.
/// Rooms that were opened before the second one was known do not count, so a chain may leave while
/// one of them is open. The next opening of one of its rooms adds it again.
#[derive(Drop)]
pub(crate) struct Chains {
    chains: IndexMap<RoomName, Chain>,
}

/// A chain that has a second room.
#[derive(Drop)]
struct Chain {
    newest: RoomName,
    /// The number of its rooms that are open.
    open: usize,
}

impl Chains {
    /// No chains.
    pub(crate) fn new(alloc: Global) -> Chains {
        Chains {
            chains: IndexMap::new(alloc),
        }
    }

    /// The room of this name is opened. `later` is the newest room of its chain, if it is an
    /// earlier one.
    ///
    /// # Errors
    /// `NoMemory` if an allocation failed.
    pub(crate) fn add(
        &mut self,
        alloc: Global,
        room: &RoomName,
        later: Option<&RoomName>,
    ) -> Result<(), NoMemory> {
        let newest = later.unwrap_or(room);
        let first = room.first(alloc)?;
        if let Some(chain) = self.chains.get_mut(&first) {
            if chain.newest.number() < newest.number() {
                chain.newest = newest.copy(alloc)?;
            }
            chain.open = chain.open.saturating_add(1);
            return Ok(());
        }
        if newest.is_first() {
            return Ok(());
        }
        let chain = Chain {
            newest: newest.copy(alloc)?,
            open: 1,
        };
        match self.chains.insert(first, chain) {
            Ok(_) => Ok(()),
            Err(_) => Err(NoMemory),
        }
    }

    /// An open room has ended, and goes on as the room of this name.
    ///
    /// # Errors
    /// `NoMemory` if an allocation failed.
    pub(crate) fn go_on(&mut self, alloc: Global, next: &RoomName) -> Result<(), NoMemory> {
        let first = next.first(alloc)?;
        if let Some(chain) = self.chains.get_mut(&first) {
            chain.newest = next.copy(alloc)?;
            return Ok(());
        }
        self.add(alloc, next, None)
    }

    /// The room of this name is closed. Where an allocation fails the chain stays, which does no
    /// harm: who asks for an earlier room is sent to a room that was the newest.
    pub(crate) fn remove(&mut self, alloc: Global, room: &RoomName) {
        let Ok(first) = room.first(alloc) else {
            return;
        };
        if let Some(chain) = self.chains.get_mut(&first) {
            chain.open = chain.open.saturating_sub(1);
            if chain.open == 0 {
                self.chains.swap_remove(&first);
            }
        }
    }

    /// The newest room of the chain of the room of this name. `None` if no later room is known.
    /// Constant time.
    ///
    /// # Errors
    /// `NoMemory` if an allocation failed.
    pub(crate) fn later(&self, alloc: Global, name: &RoomName) -> Result<Option<RoomName>, NoMemory>
        ensures { IfOk result (λ found. IfSome found (IsLater name.now)) }
    {
        let first = name.first(alloc)?;
        let Some(chain) = self.chains.get(&first) else {
            return Ok(None);
        };
        let newest = &chain.newest;
        if newest.is_in_chain_of(&first) && name.number() < newest.number() {
            return Ok(Some(newest.copy(alloc)?));
        }
        Ok(None)
    }
}
