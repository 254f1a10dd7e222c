//! What a server counts of the writing and syncing of rooms' files.

use crate::meters::{count, counter, counters, labelled, load};
use base_types::NoMemory;
use keeper::FileSync;
use metrics::{Bucket, Family, Kind, histogram_samples};
use std::alloc::{AllocError, Global};
use std::sync::atomic::{AtomicU64, Ordering};
use std::time::Duration;

/// The bounds of the buckets, in microseconds: by 1, 2 and 5 from half a millisecond to ten
/// seconds.
const BOUNDS: [u64; 14] = [
    500, 1_000, 2_000, 5_000, 10_000, 20_000, 50_000, 100_000, 200_000, 500_000, 1_000_000,
    2_000_000, 5_000_000, 10_000_000,
];

/// Counters that begin at 0 with the server.
#[derive(Drop)]
pub(crate) struct SyncMeters {
    /// How many times are at most the bound at the same place of `BOUNDS`, and above the one
    /// before.
    within: Vec<AtomicU64>,
    /// How many times are above the last bound.
    above: AtomicU64,
    /// The sum of the times, in microseconds.
    sum: AtomicU64,
    /// The bytes that were appended.
    bytes: AtomicU64,
    /// The attempts that failed since no space is left on the device.
    full: AtomicU64,
    /// The attempts that failed for another reason.
    failed: AtomicU64,
}

/// A time in microseconds.
fn micros_of(time: Duration) -> u64 {
    time.as_secs()
        .saturating_mul(1_000_000)
        .saturating_add(u64::from(time.subsec_micros()))
}

impl SyncMeters {
    /// Counters at 0.
    ///
    /// # Errors
    /// `AllocError` if an allocation failed.
    pub(crate) fn new(alloc: Global) -> Result<SyncMeters, AllocError> {
        Ok(SyncMeters {
            within: counters(alloc, BOUNDS.len())?,
            above: AtomicU64::new(0),
            sum: AtomicU64::new(0),
            bytes: AtomicU64::new(0),
            full: AtomicU64::new(0),
            failed: AtomicU64::new(0),
        })
    }

    /// A room's file was written and synced, or that failed.
    pub(crate) fn add(&self, sync: FileSync) {
        match sync {
            FileSync::Kept { bytes, time } => {
                let micros = micros_of(time);
                let place = BOUNDS.iter().position(|bound| micros <= *bound);
                count(
                    place
                        .and_then(|place| self.within.get(place))
                        .unwrap_or(&self.above),
                );
                self.sum.fetch_add(micros, Ordering::SeqCst);
                self.bytes.fetch_add(bytes, Ordering::SeqCst);
            }
            FileSync::Full => count(&self.full),
            FileSync::Failed => count(&self.failed),
        }
    }

    /// Appends the families.
    ///
    /// # Errors
    /// `NoMemory` if an allocation failed.
    pub(crate) fn add_families(
        &self,
        alloc: Global,
        families: &mut Vec<Family>,
    ) -> Result<(), NoMemory> {
        families.push(self.times(alloc)?)?;
        families.push(self.faults(alloc)?)?;
        families.push(counter(
            alloc,
            "grace_file_bytes_total",
            "Bytes appended to files of rooms.",
            load(&self.bytes),
        )?)?;
        Ok(())
    }

    /// The family of times.
    fn times(&self, alloc: Global) -> Result<Family, NoMemory> {
        let mut buckets = Vec::with_capacity(alloc, BOUNDS.len())?;
        for (bound, counter) in BOUNDS.iter().zip(&self.within) {
            buckets.push(Bucket {
                bound: *bound,
                count: load(counter),
            })?;
        }
        let samples = histogram_samples(alloc, &buckets, load(&self.above), load(&self.sum))?;
        let help = "How long it took to write and sync the file of a room.";
        Ok(Family::new("grace_sync_seconds", help, Kind::Histogram, samples))
    }

    /// The family of attempts that failed, by why they did.
    fn faults(&self, alloc: Global) -> Result<Family, NoMemory> {
        let mut samples = Vec::with_capacity(alloc, 2)?;
        samples.push(labelled(alloc, "kind", "full", load(&self.full))?)?;
        samples.push(labelled(alloc, "kind", "failed", load(&self.failed))?)?;
        let help = "Attempts to write and sync the file of a room that failed.";
        Ok(Family::new("grace_syncs_failed_total", help, Kind::Counter, samples))
    }
}
