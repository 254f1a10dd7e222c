//! Requests of a session.

ghost use Rattle.std.specs.Prelude.{◌≡◌, option_map, IfOk};
ghost use Rattle.wire.specs.declared.request.Request.TheVariants.{Change};

use base_types::{NoMemory, OpName, RoomName, StateVector};
use rules::Body;
use std::alloc::Global;

/// The greatest length of a request's text, in bytes.
pub const MAX_REQUEST_LEN: usize = 16_384;

/// The greatest place at which a page may be asked to start.
pub const MAX_FROM: u32 = 65_535;

/// A request of a session.
#[derive(Drop)]
pub enum Request {
    /// Enter a room as a new site.
    Join {
        room: RoomName,
    },
    /// Enter a room again as a site that has joined it.
    Back {
        room: RoomName,
        site: u32,
    },
    /// Add an operation, with its number among the site's operations and what its author had seen.
    Change {
        seq: u32,
        seen: StateVector,
        body: Body,
    },
    /// Show the versions of an object.
    Show {
        object: OpName,
    },
    /// Read a page of the room's objects.
    List {
        from: u32,
    },
    /// Read a page of the room's record. If `waits`, the answer may be held until the record has an
    /// entry at `from`.
    Pull {
        from: u32,
        waits: bool,
    },
    /// Leave the room.
    Leave,
}

/// An equal request to add an operation.
fn copy_change(
    alloc: Global,
    seq: u32,
    seen: &StateVector,
    body: &Body,
) -> Result<Request, NoMemory>
    ensures { IfOk result (λ request. request ≡ Change seq seen.now body.now) }
{
    let seen = seen.copy(alloc)?;
    let body = body.copy(alloc)?;
    Ok(Request::Change { seq, seen, body })
}

impl Request {
    ghost use Rattle.wire.specs.Entering.{room_to_enter};

    /// The name of the room that a join or a back asks to enter, or `None` for other requests.
    pub fn room_to_enter(&self) -> Option<&RoomName>
        ensures { option_map (λ name. name.now) result ≡ room_to_enter self.now }
    {
        match self {
            Request::Join { room } => Some(room),
            Request::Back { room, site: _ } => Some(room),
            Request::Change { .. } => None,
            Request::Show { .. } => None,
            Request::List { .. } => None,
            Request::Pull { .. } => None,
            Request::Leave => None,
        }
    }

    /// Returns an equal copy.
    ///
    /// # Errors
    ///
    /// `NoMemory` if an allocation failed.
    pub fn copy(&self, alloc: Global) -> Result<Request, NoMemory>
        ensures { IfOk result (λ request. request ≡ self.now) }
    {
        match self {
            Request::Join { room } => Ok(Request::Join {
                room: room.copy(alloc)?,
            }),
            Request::Back { room, site } => Ok(Request::Back {
                room: room.copy(alloc)?,
                site: *site,
            }),
            Request::Change { seq, seen, body } => copy_change(alloc, *seq, seen, body),
            Request::Show { object } => Ok(Request::Show { object: *object }),
            Request::List { from } => Ok(Request::List { from: *from }),
            Request::Pull { from, waits } => Ok(Request::Pull {
                from: *from,
                waits: *waits,
            }),
            Request::Leave => Ok(Request::Leave),
        }
    }
}
