//! Which rooms a session may enter.
#![tactic(auto)]

pub mod laws;
mod scope;

pub use scope::Scope;
