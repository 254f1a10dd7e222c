//! The commands `script`, `check`, `migrate`, `renew` and `renewed`, which need only readers and
//! writers. Also what `serve` shares with them: parsing the names of rooms, and the fault when
//! rooms cannot be made.
#![tactic(auto)]

mod checking;
mod comparing;
mod fault;
pub mod laws;
mod migrating;
mod renewing;
mod reporting;
mod script;

pub use checking::check_over;
pub use comparing::renewed_over;
pub use fault::fault_of_rooms;
pub use migrating::migrate_over;
pub use renewing::renew_over;
pub use script::{room_names, script_over};
