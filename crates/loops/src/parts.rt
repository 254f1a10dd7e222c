//! What a loop is made of.

use crate::mail::News;
use crate::openings::Openings;
use crate::parked::Parked;
use mio::{Events, Poll};
use std::alloc::{AllocError, Global};

/// The most reports that a loop takes at a time.
const MAX_EVENTS: usize = 1_024;

/// What one read takes.
const CHUNK_LEN: usize = 16_384;

/// What a loop is made of, before it has lines.
#[derive(Drop)]
pub(crate) struct Parts {
    /// The number of the loop.
    pub(crate) number: usize,
    pub(crate) poll: Poll,
    pub(crate) events: Events,
    pub(crate) chunk: Vec<u8>,
    pub(crate) news: News,
    pub(crate) parked: Parked,
    pub(crate) openings: Openings,
}

impl Parts {
    /// What the loop of this number is made of.
    pub(crate) fn new(
        alloc: Global,
        number: usize,
        poll: Poll,
        places: usize,
    ) -> Result<Parts, AllocError> {
        Ok(Parts {
            number,
            poll,
            events: Events::with_capacity(alloc, MAX_EVENTS)?,
            chunk: vec![in alloc; 0u8; CHUNK_LEN]?,
            news: News::new(alloc, places)?,
            parked: Parked::new(alloc, places)?,
            openings: Openings::new(alloc)?,
        })
    }
}
