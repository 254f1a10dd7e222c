//! The notes of the sites of a room.
#![tactic(auto)]

mod notes;

pub use notes::Notes;
