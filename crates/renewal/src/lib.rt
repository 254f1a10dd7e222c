//! Renewal: a short record that draws what another record draws.
//!
//! `certify` decides whether entries are a renewal of a room's record. `renewed` looks for one, and
//! gives only what it has certified: its contract does not rest on how the entries were found.
#![tactic(auto)]

mod certificate;
mod drawings;
mod entries;
mod picture;
mod plan;
mod reason;
mod renewing;
mod separation;
mod values;

pub use certificate::certify;
pub use drawings::{drawing_of, draws};
pub use picture::Picture;
pub use reason::Reason;
pub use renewing::{Renewal, renewed};
