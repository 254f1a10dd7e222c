//! Requests, replies and entries as text.

mod entry;
mod names;
mod number;
mod operation;
mod part;
mod reply;
mod request;

pub use entry::write_entry;
pub(crate) use names::{MOST_BYTES_MORE, insert_name};
pub(crate) use part::{compact, compact_within};
pub use reply::write_reply;
pub use request::write_request;
