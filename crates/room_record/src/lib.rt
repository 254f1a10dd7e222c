//! The store of a room's entries, with texts of the first of them.
#![tactic(auto)]

mod record;
mod texts;

pub use record::{Record, shared_entries};
