//! Rooms whose records are kept in files: what each file keeps, and how threads wait for more.
#![tactic(auto)]

mod chains;
mod desk;
mod doors;
mod ending;
mod file;
mod files;
mod keeping;
pub mod laws;
mod moving;
mod orders;
mod queue;
mod recent;
mod sleepers;

pub use file::{Clean, Kept, RoomFile};
pub use files::{FileFound, RoomFiles};
pub use keeping::{Keeping, OnDemand};
