//! The fault that ends a command early, with its line and its exit status. Also reading input
//! whole, up to a limit.
#![tactic(auto)]

mod fault;
mod reading;

pub use fault::Fault;
pub use reading::{MAX_FILE_LEN, read_up_to};
