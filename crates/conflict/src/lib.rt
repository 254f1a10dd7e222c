//! The changes of one object, by their places, and the conflicts between them.
#![tactic(auto)]

pub mod laws;
mod object_changes;

pub use conflict_rows::{Addition, WithAddition};
pub use object_changes::ObjectChanges;
