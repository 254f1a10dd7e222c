//! A replica of a room, which takes the entries of the room's record in any causal order.
#![tactic(auto)]

mod fault;
pub mod laws;
mod replica;

pub use fault::{FeedFault, TakeFault};
pub use replica::{Fed, Replica};
pub use rules::Limits;
