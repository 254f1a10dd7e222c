//! The data of a room's history. The written rules are definitions over it, in `specs/`.
#![tactic(auto)]

mod attrs;
pub mod examples;
mod history;
pub mod laws;
mod limits;
mod pairs;
mod refusal;
mod shared;
mod version;

pub use attrs::{Attrs, AttrsFault, has_key};
pub use history::{Body, Entry, Op};
pub use limits::{LimitValues, Limits};
pub use pairs::{Pairs, PairsFault};
pub use refusal::{MAX_REFUSAL_CODE, Refusal};
pub use shared::SharedOp;
pub use version::{AttrList, Shown, Version};
