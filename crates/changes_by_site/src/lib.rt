//! The changes of one object by the sites that they come from: which of them a vector counts.
#![tactic(auto)]

mod by_site;
mod known;

pub use by_site::BySite;
pub use known::Known;
