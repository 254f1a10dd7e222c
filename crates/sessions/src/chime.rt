//! Rings for changes of notes: for each room at most twenty a second.

use crate::host::Host;
use crossbeam_channel::{Receiver, Sender};
use room_lock::RoomHistories;
use std::alloc::{AllocError, Global};
use std::sync::Wait;
use std::sync::atomic::{AtomicBool, AtomicU64, Ordering};
use std::time::{Clock, Duration};

/// The time whose changes of notes are told by one ring, in milliseconds.
const GATHERING_MILLIS: u64 = 50;

/// What the thread of a chime is to do next.
#[derive(Drop)]
pub enum Stroke {
    /// To ring the bell in the room at this place.
    Ring(usize),
    /// To end.
    End,
}

/// The rings for a room.
#[derive(Drop)]
struct Rings {
    /// A ring is in the queue.
    is_due: AtomicBool,
    /// How often the room was rung.
    count: AtomicU64,
}

/// Rings the bell of the rooms whose notes have changed. Each change is followed by a ring. A room
/// has at most one stroke in the queue.
#[derive(Drop)]
pub struct Chime {
    rooms: Vec<Rings>,
    queue: Sender<Stroke>,
}

impl Chime {
    /// A chime for the rooms at this many places, and its strokes.
    ///
    /// # Errors
    /// `AllocError` if an allocation failed.
    pub fn new(alloc: Global, places: usize) -> Result<(Chime, Receiver<Stroke>), AllocError> {
        let mut rooms = Vec::with_capacity(alloc, places)?;
        for _ in 0..places {
            rooms.push(Rings {
                is_due: AtomicBool::new(false),
                count: AtomicU64::new(0),
            })?;
        }
        let (queue, strokes) = crossbeam_channel::unbounded(alloc)?;
        Ok((Chime { rooms, queue }, strokes))
    }

    /// How often the room at this place was rung.
    pub(crate) fn count_rings(&self, place: usize) -> u64 {
        match self.rooms.get(place) {
            Some(rings) => rings.count.load(Ordering::SeqCst),
            None => 0,
        }
    }

    /// A note has changed in the room at this place. Where an allocation fails, the next change
    /// tells of this one.
    pub(crate) fn strike(&self, rt: &impl Wait, place: usize) {
        if let Some(rings) = self.rooms.get(place)
            && !rings.is_due.swap(true, Ordering::SeqCst)
            && self.queue.try_send(rt, Stroke::Ring(place)).is_err()
        {
            rings.is_due.store(false, Ordering::SeqCst);
        }
    }

    /// Counts a ring for the room at this place. A change after this is told by another one.
    fn count_ring(&self, place: usize) {
        if let Some(rings) = self.rooms.get(place) {
            rings.is_due.store(false, Ordering::SeqCst);
            rings.count.fetch_add(1, Ordering::SeqCst);
        }
    }

    /// Nobody is to be told any more.
    pub(crate) fn end(&self, rt: &impl Wait) {
        let _ = self.queue.send(rt, Stroke::End);
    }
}

/// Rings for the strokes of a host's chime, until it ends. Then it gathers strokes for a while.
pub(crate) fn ring_chime<P, R, O, K>(host: &Host<'_, P, R, O, K>, strokes: &Receiver<Stroke>)
where
    P: RoomHistories,
    R: Wait + Clock,
{
    for _ in host.rt.forever() {
        let Ok(Stroke::Ring(first)) = strokes.recv(host.rt) else {
            return;
        };
        // A room that is struck again while these are rung has its next ring after the sleep.
        let waiting = strokes.len();
        ring(host, first);
        for stroke in strokes.try_iter(host.rt).take(waiting) {
            match stroke {
                Stroke::Ring(place) => ring(host, place),
                Stroke::End => return,
            }
        }
        host.rt.sleep(Duration::from_millis(GATHERING_MILLIS));
    }
}

/// Rings the bell in the room at this place.
fn ring<P: RoomHistories, R: Wait, O, K>(host: &Host<'_, P, R, O, K>, place: usize) {
    host.chime.count_ring(place);
    host.bell.ring(host.rt, place);
}
