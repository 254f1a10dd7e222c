//! Transcripts: one line for each request of a site and its reply, and the order in which lines may
//! stand.
#![tactic(auto)]

pub mod laws;
mod line;
mod order;
mod ordered_part;

pub use line::{TranscriptLine, is_join_request};
pub use ordered_part::OrderedPart;
