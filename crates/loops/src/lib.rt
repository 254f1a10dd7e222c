//! Event loops that serve WebSocket connections: many connections on a few threads. A `Service`
//! says what is served.
#![tactic(auto)]

mod bell;
mod burden;
mod client;
mod ending;
mod event_loop;
mod fault;
mod headroom;
mod line;
mod mail;
mod opening;
mod openings;
mod output;
mod parked;
mod parts;
mod place;
mod readiness;
mod rounds;
mod run;
mod seats;
mod service;
mod shared;
mod slab;
mod stage;
mod times;

pub use bell::{Bell, MAX_LOOPS};
pub use client::{Arrival, Client};
pub use ending::Ending;
pub use fault::LoopsFault;
pub use run::{Loops, Settings, run_loops};
pub use service::{Admission, Service};
