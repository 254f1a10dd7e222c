//! Requests, replies and entries of a record, their JSON forms, and their texts. A put of one pair
//! also has an old form, which begins with the word `set`. That form is never written.
#![tactic(auto)]

pub mod laws;
mod lists;
mod note;
mod reply;
mod request;
mod shared_id;
mod write;

pub use lists::{EntryList, IdList, NoteList, ObjectList, VersionList};
pub use note::NoteRequest;
pub use reply::{EntryKind, Reply};
pub use request::{MAX_FROM, MAX_REQUEST_LEN, Request};
pub use rules::Refusal;
pub use shared_id::{SharedId, SharedIds};
pub use write::{write_entry, write_reply, write_request};
