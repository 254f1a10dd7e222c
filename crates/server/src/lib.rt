//! The program over arguments, readers, writers and connections, for `main` to call.
#![tactic(auto)]

mod accept;
mod command;
mod departure;
mod early_end;
mod folder_files;
mod meters;
mod platform;
mod serve;
mod server_observer;
mod stamped_log;
mod sync_meters;
mod tallies;
mod tally;
mod turnstile;

pub use command::run;
pub use platform::Platform;
pub use stamped_log::StampedLog;
