//! Checks a room's record and a transcript of it, independently of the server.
#![tactic(auto)]

mod findings;
pub mod laws;
mod line_fault;
mod migration;
mod replay;
mod verdict;

pub use migration::{Migrated, migrate};
pub use verdict::{Verdict, check};
