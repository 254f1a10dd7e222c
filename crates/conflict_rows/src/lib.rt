//! The changes of one object in order of arrival, with the places of each one's base and of the
//! changes that it conflicts with. Finds the conflicts of a change to be added.
#![tactic(auto)]

mod addition;
mod conflict_rows;
mod joins;

pub use addition::{Addition, WithAddition};
pub use conflict_rows::ConflictRows;
