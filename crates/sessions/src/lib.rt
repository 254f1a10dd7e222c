//! Sessions of clients over WebSocket connections (RFC 6455), and the rooms that they call.
#![tactic(auto)]

mod cause;
mod chime;
mod host;
mod keeper_threads;
pub mod laws;
mod observer;
mod record;
mod service;
mod session;
mod session_reply;
mod streams;
mod talk;
mod warning_observer;

pub use cause::{Cause, MessageFault};
pub use chime::{Chime, Stroke};
pub use host::Host;
pub use observer::Observer;
pub use session::Session;
pub use streams::{ServeFault, Served, serve_streams};
