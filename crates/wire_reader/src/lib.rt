//! Requests, requests about notes, replies and entries of a record from JSON. A put of one pair is
//! also read from its old form, which begins with the word `set`.
#![tactic(auto)]

mod body;
mod compact;
mod entry;
mod exchange;
mod fault;
pub mod laws;
mod note;
mod part;
mod plain_text;
mod reply;
mod request;
mod rising;
mod token;

pub use entry::read_entry;
pub use exchange::read_exchange;
pub use fault::{ReadFault, if_in_form};
pub use json::Scratch;
pub use note::read_note_request;
pub use reply::read_reply;
pub use request::read_request;
