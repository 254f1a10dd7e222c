//! A room's record as a file of text: appending entries, and finding its lines.
#![tactic(auto)]

pub mod laws;
mod line_ends;
mod range;
mod text;
mod whole;

pub use line_ends::first_line;
pub use range::{are_in_range, is_in_range};
pub use text::{append, text_of};
pub use whole::whole_len;
