//! The register of a server: the openings of its rooms, in order. Two holders of an opening of one
//! number know one room. At run time the register is a counter, and an opening its number and
//! place.
#![tactic(auto)]

mod histories;
mod new_opening;
mod opening;
mod register;
mod rule;

pub use histories::RoomHistories;
pub use new_opening::NewOpening;
pub use opening::Opening;
pub use register::{Blank, Register};
