//! Sets of places, relations of conflict between places, and the changes at the places of an
//! object.
#![tactic(auto)]

mod place_set;
mod relation;
mod words;

pub use place_set::PlaceSet;
pub use relation::Relation;
