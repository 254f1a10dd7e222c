//! How many bytes all lines hold.

use std::sync::atomic::{AtomicUsize, Ordering};

/// Where all lines hold more bytes, those of which the stream takes nothing end sooner.
const CROWDED_LEN: usize = 268_435_456;

/// Where all lines hold more bytes, nothing more is taken from clients.
const FULL_LEN: usize = 536_870_912;

/// How many bytes all lines hold: what waits to be sent, what waits to be kept, and what came and
/// is no whole message. Also how many lines wait for something to be kept.
#[derive(Drop)]
pub(crate) struct Burden {
    bytes: AtomicUsize,
    waiting: AtomicUsize,
}

impl Burden {
    /// No bytes.
    pub(crate) fn new() -> Burden {
        Burden {
            bytes: AtomicUsize::new(0),
            waiting: AtomicUsize::new(0),
        }
    }

    /// A line holds `after` bytes, and held `before`.
    pub(crate) fn change(&self, before: usize, after: usize) {
        if after > before {
            self.bytes.fetch_add(after - before, Ordering::SeqCst);
        } else if after < before {
            self.bytes.fetch_sub(before - after, Ordering::SeqCst);
        }
    }

    /// A line waits for something to be kept, or does so no more.
    pub(crate) fn change_waiting(&self, is_waiting: bool) {
        if is_waiting {
            self.waiting.fetch_add(1, Ordering::SeqCst);
        } else {
            self.waiting.fetch_sub(1, Ordering::SeqCst);
        }
    }

    /// Returns whether one line alone waits for something to be kept.
    pub(crate) fn is_one_waiting(&self) -> bool {
        self.waiting.load(Ordering::SeqCst) == 1
    }

    /// Returns whether lines that wait end sooner.
    pub(crate) fn is_crowded(&self) -> bool {
        self.bytes.load(Ordering::SeqCst) > CROWDED_LEN
    }

    /// Returns whether nothing more is taken from clients.
    pub(crate) fn is_full(&self) -> bool {
        self.bytes.load(Ordering::SeqCst) > FULL_LEN
    }
}
