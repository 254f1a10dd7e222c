//! Metrics in Prometheus' text form, version 0.0.4: families, histograms, and the writing of their
//! text.
#![tactic(auto)]

mod escape;
mod family;
mod histogram;
pub mod laws;
mod number;
mod text;

pub use family::{Family, Kind, Label, Sample, Suffix};
pub use histogram::{Bucket, histogram_samples};
pub use number::Number;
pub use text::write_families;
