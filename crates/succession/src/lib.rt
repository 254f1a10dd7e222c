//! When a room is nearly full, and how it goes on as another one.
#![tactic(auto)]

mod succeeding;
mod usage;

pub use succeeding::{Obstacle, Succession, succeed, successor_for, successor_of};
pub use usage::{has_joins_for, is_nearly_full, nine_tenths};
