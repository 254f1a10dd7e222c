//! A room: its record, and the answer to each request.
#![tactic(auto)]

pub mod examples;
mod planned;
mod room;
mod site_request;

pub use planned::Planned;
pub use room::RoomState;
pub use rules::Limits;
pub use site_request::SiteRequest;
