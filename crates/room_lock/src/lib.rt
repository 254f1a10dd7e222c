//! Rooms behind locks. Threads call them through passes. Each room has one record, and each of its
//! passes has seen a prefix of it. A room keeps the parts of the sites that no session is in as.
#![tactic(auto)]

mod account;
mod closing;
mod entrance;
mod fault;
mod in_use;
pub mod laws;
mod lookup;
mod making;
mod new_room;
mod news;
mod noted;
mod offered;
mod others;
mod part;
mod pass;
mod prefix;
mod progress;
mod restoring;
mod room;
mod rooms;
mod shelf;
mod slot;

pub use closing::RoomRecord;
pub use entrance::Entrance;
pub use fault::{CallFault, CloseFault};
pub use in_use::InUse;
pub use lookup::{Lookup, Opened};
pub use making::NewRooms;
pub use news::News;
pub use noted::Noted;
pub use offered::Offered;
pub use openings::{Opening, RoomHistories};
pub use part::Part;
pub use pass::Pass;
pub use prefix::Prefix;
pub use progress::Progress;
pub use rooms::Rooms;
