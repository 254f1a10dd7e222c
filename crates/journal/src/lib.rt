//! A file that grows at its end, and a model of which bytes survive a loss of power.
#![tactic(auto)]

mod failures;
mod fault;
mod file;
mod journal;
mod memory;

pub use failures::Failures;
pub use fault::JournalFault;
pub use file::Synced;
pub use journal::Journal;
pub use memory::Memory;
