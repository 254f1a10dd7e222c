//! What the lines of all loops share.

use crate::bell::Bell;
use crate::burden::Burden;
use crate::client::Client;
use crate::ending::Ending;
use crate::headroom::Headroom;
use crate::seats::Seats;
use crate::service::Service;
use std::alloc::Global;

/// What the lines of all loops share.
#[derive(Drop)]
pub(crate) struct Shared<'a, R, V> {
    pub(crate) rt: &'a R,
    pub(crate) alloc: Global,
    pub(crate) service: &'a V,
    pub(crate) bell: &'a Bell,
    pub(crate) seats: Seats,
    pub(crate) burden: Burden,
    /// How long a client may be silent, in milliseconds.
    pub(crate) idle: Option<u64>,
}

impl<R, V: Service> Shared<'_, R, V> {
    /// A session ends without a handshake.
    pub(crate) fn refuse(&self, client: &Client, ending: Ending) {
        self.service.before_session();
        self.service.after_session(client, None, ending);
    }
}

/// What a loop lends to the line whose turn it is.
#[derive(Drop)]
pub(crate) struct Bench<C: Drop> {
    /// Memory for reading messages.
    pub(crate) scratch: C,
    /// What one read takes.
    pub(crate) chunk: Vec<u8>,
    /// Memory for what comes of it.
    pub(crate) headroom: Headroom,
}
