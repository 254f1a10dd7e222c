//! Renewing a record that is given as text, and comparing what two such records draw.
#![tactic(auto)]

mod comparing;
mod renewing;

pub use comparing::{Comparison, compare};
pub use renewing::{RenewedText, renew};
