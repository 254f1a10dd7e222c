//! A WebSocket connection of a server as a value: bytes in, frames out, and a talk between them.
//! No socket is opened here, and no thread waits.
#![tactic(auto)]

mod closing;
mod connection;
mod dialogue;
mod end;
mod head;
mod input;
mod item;
pub mod laws;
mod talk;
mod waiting;

pub use closing::Closing;
pub use connection::{Connection, MAX_MESSAGE_LEN};
pub use end::End;
pub use head::{
    Head, MAX_HEAD_LEN, Page, UNAVAILABLE, health_answer, metrics_answer, read_head,
    write_switching,
};
pub use item::{MAX_LOAD, MAX_WAITING, MAX_WAITING_LEN};
pub use talk::{Answer, MAX_HELD_LEN, Talk};
