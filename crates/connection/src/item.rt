//! A frame that waits to be sent, and how much may wait.

/// Where so many frames wait, no more of what came is served.
pub const MAX_WAITING: usize = 64;

/// Where the frames that wait have so many bytes, no more of what came is served.
pub const MAX_WAITING_LEN: usize = 65_536;

/// The most bytes that `Connection::load` counts.
pub const MAX_LOAD: usize = 16_777_216;

/// A frame that waits to be sent. Its bytes stand in the list of all.
#[derive(Drop)]
pub(crate) struct Item<D> {
    /// The number of its bytes.
    pub(crate) len: usize,
    /// What it reports.
    pub(crate) reported: Option<D>,
}
