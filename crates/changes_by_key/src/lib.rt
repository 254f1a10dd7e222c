//! The changes of one object by the keys that they give values, and the drops: which of them may be
//! at odds with a put.
#![tactic(auto)]

mod by_key;

pub use by_key::ByKey;
