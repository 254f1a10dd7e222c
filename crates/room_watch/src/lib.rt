//! The command `watch`: shows the objects of a live room by a replica.
#![tactic(auto)]

mod fault;
mod follow;
mod session;
mod watch;

pub use fault::WatchFault;
pub use follow::{follow_at, follow_over, lines_of_entries};
pub use watch::{watch_at, watch_over};
