//! Byte streams: reads and writes that survive signals, and writes of all bytes.
#![tactic(auto)]

mod uninterrupted;
mod whole;

pub use uninterrupted::Uninterrupted;
pub use whole::{PIECE_LEN, read_buffer, write_out};
