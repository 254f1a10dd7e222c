//! The words of the command line: commands, arguments, options, help, and mistakes in them.
#![tactic(auto)]

mod mistake;
mod words;

pub use mistake::show_error;
pub use words::{VERSION, grace};
