//! What keeps the records of rooms: the trait of a keeper, and the keeper that keeps nothing.
#![tactic(auto)]

mod access;
mod attempt;
mod forgets;
mod keeper;

pub use access::{Access, Reason};
pub use attempt::{Attempt, Beginning, Change, FileSync};
pub use forgets::Forgets;
pub use keeper::{Failing, KeepFault, Keeper};
