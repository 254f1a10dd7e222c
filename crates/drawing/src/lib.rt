//! What the entries of a room draw: the operations so far and the objects, by entries that were
//! added in a causal order.
#![tactic(auto)]

mod addition;
mod drawing;
mod fault;
mod pages;

pub use addition::Addition;
pub use drawing::Drawing;
pub use fault::AddFault;
