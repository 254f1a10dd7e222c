//! Memory that the allocator has at hand for a loop.
//! glibc lets the heap of a thread grow by as few pages as an allocation lacks, by a system call
//! each time. So now and then a loop takes much at once, and gives it back unused. Then the
//! allocator has it, and the system has no page to give for what is not written.

use std::alloc::Global;

/// How much is taken at once. Of what a thread gives back, glibc keeps 128 KiB at the end of its
/// heap. Blocks from that length on it maps and unmaps, each by itself.
const HEADROOM_LEN: usize = 120_000;

/// How much may come from clients meanwhile. What it adds to rooms mostly takes less memory.
const LEN_BETWEEN: usize = 16_384;

/// Takes memory and gives it back, again and again.
#[derive(Drop)]
pub(crate) struct Headroom {
    alloc: Global,
    /// How many bytes came since it last did.
    len: usize,
}

impl Headroom {
    /// It has not taken anything yet.
    pub(crate) fn new(alloc: Global) -> Headroom {
        Headroom { alloc, len: 0 }
    }

    /// So many bytes came. Where memory is refused, nothing is lost.
    pub(crate) fn add(&mut self, count: usize) {
        self.len = self.len.saturating_add(count);
        if self.len >= LEN_BETWEEN {
            self.len = 0;
            let _: Result<Vec<u8>, _> = Vec::with_capacity(self.alloc, HEADROOM_LEN);
        }
    }
}
