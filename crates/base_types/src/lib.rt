//! Names of operations, labels, values, version identifiers and state vectors: the data types of
//! all crates above.
#![tactic(auto)]

mod fault;
mod label;
mod op_name;
mod room_name;
mod state_vector;
mod text;
mod value;
mod version_id;

pub use fault::{ListFault, NameFault, NoMemory, RoomsFault};
pub use label::{Key, Kind, Label};
pub use op_name::{MAX_SEQ, MAX_SITE, OpName};
pub use room_name::{MAX_ROOM_LEN, MAX_ROOM_NUMBER, RoomName, repeated_name};
pub use state_vector::{SitePairs, StateVector, VectorFault};
pub use value::{MAX_VALUE_LEN, Value, ValueText};
pub use version_id::VersionId;
