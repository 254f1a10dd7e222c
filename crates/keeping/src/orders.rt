//! What threads are to do next.

use crate::queue::{Order, Queue};
use crate::sleepers::Sleepers;
use base_types::NoMemory;
use std::alloc::Global;
use std::sync::atomic::{AtomicBool, AtomicUsize, Ordering};
use std::sync::{Condvar, Mutex, MutexGuard, Wait};
use std::thread::yield_now;
use std::time::{Clock, Duration, Instant};

/// The orders, and the threads that wait for them.
#[derive(Drop)]
struct Roster {
    queue: Queue,
    /// The threads that wait for orders.
    sleepers: Sleepers,
    /// When the last order was taken out.
    taken: Option<Instant>,
}

impl Roster {
    /// Notes that an order is taken out. Returns whether the one before was a short time ago.
    fn note_taken(&mut self, rt: &impl Clock) -> bool {
        let before = std::mem::replace(&mut self.taken, Instant::now(rt).ok());
        match before {
            Some(before) => is_within(rt, before, SOON_MICROS),
            None => false,
        }
    }
}

/// For how long a thread looks for the next order before it sleeps, where orders come soon.
const LOOK_MICROS: u64 = 300;

/// Orders come soon if there is no more than this time between the last two.
const SOON_MICROS: u64 = 1_000;

/// What is to be done next, which threads share.
#[derive(Drop)]
pub(crate) struct Orders {
    roster: Mutex<Roster>,
    /// What wakes the thread in each bed of the sleepers.
    alarms: Vec<Condvar>,
    /// How many orders of the queue threads may take out now.
    ready: AtomicUsize,
    /// A thread looks for the next order.
    is_looking: AtomicBool,
    /// Orders come soon.
    comes_soon: AtomicBool,
}

impl Orders {
    /// No orders for so many threads, with space to keep the rooms at so many places: an order to
    /// keep one, of which there is at most one for each place, is never lost. At most half of the
    /// threads open and close rooms at a time, and one of these closes. `NoMemory` if an allocation
    /// failed.
    pub(crate) fn new(alloc: Global, places: usize, threads: usize) -> Result<Orders, NoMemory> {
        let mut alarms = Vec::with_capacity(alloc, threads)?;
        for _ in 0..threads {
            alarms.push(Condvar::new())?;
        }
        Ok(Orders {
            roster: Mutex::new(Roster {
                queue: Queue::new(alloc, places, (threads / 2).max(1))?,
                sleepers: Sleepers::none(alloc, threads)?,
                taken: None,
            }),
            alarms,
            ready: AtomicUsize::new(0),
            is_looking: AtomicBool::new(false),
            comes_soon: AtomicBool::new(false),
        })
    }

    /// Adds an order, and wakes a thread that waits if it may be taken out and none looks. False if
    /// an allocation failed.
    pub(crate) fn add(&self, rt: &impl Wait, order: Order) -> bool {
        let mut roster = self.roster.lock(rt);
        let before = roster.queue.count_ready();
        let is_added = roster.queue.push(order);
        let ready = self.publish(&roster.queue);
        if ready > before && !self.is_looking.load(Ordering::SeqCst) {
            self.wake_one(roster);
        }
        is_added
    }

    /// Adds an order, and wakes nobody: the thread that calls this carries out another order, and
    /// takes the next one itself. The fewer threads open rooms, the less memory the allocator keeps
    /// for them. False if an allocation failed.
    pub(crate) fn add_next(&self, rt: &impl Wait, order: Order) -> bool {
        let mut roster = self.roster.lock(rt);
        let is_added = roster.queue.push(order);
        self.publish(&roster.queue);
        is_added
    }

    /// Has the threads that look see how many orders they may take out now. Returns the number.
    fn publish(&self, queue: &Queue) -> usize {
        let ready = queue.count_ready();
        self.ready.store(ready, Ordering::SeqCst);
        ready
    }

    /// Gives the roster back, and wakes a thread that sleeps, if there is one.
    fn wake_one(&self, mut roster: MutexGuard<'_, Roster>) {
        let woken = roster.sleepers.wake_first();
        drop(roster);
        if let Some(bed) = woken
            && let Some(alarm) = self.alarms.get(bed)
        {
            alarm.notify_one();
        }
    }

    /// Looks for the next order for a while where orders come soon, unless another thread does. A
    /// thread that sleeps is woken late, and to wake it costs who adds the order as much.
    fn look(&self, rt: &(impl Wait + Clock)) {
        if !self.comes_soon.load(Ordering::SeqCst) || self.is_looking.swap(true, Ordering::SeqCst) {
            return;
        }
        if let Ok(began) = Instant::now(rt) {
            for _ in rt.forever() {
                if self.ready.load(Ordering::SeqCst) > 0 || !is_within(rt, began, LOOK_MICROS) {
                    break;
                }
                yield_now();
            }
        }
        self.is_looking.store(false, Ordering::SeqCst);
    }

    /// Waits for the next order, and takes it out. If more may be taken, wakes another thread.
    /// `None` once all is over and no order is left for this thread, or if more threads wait than
    /// were announced.
    pub(crate) fn next(&self, rt: &(impl Wait + Clock)) -> Option<Order> {
        self.look(rt);
        let mut roster = self.roster.lock(rt);
        for _ in rt.forever() {
            if let Some(order) = roster.queue.pop() {
                let left = self.publish(&roster.queue);
                let comes_soon = roster.note_taken(rt);
                self.comes_soon.store(comes_soon, Ordering::SeqCst);
                if left > 0 {
                    self.wake_one(roster);
                }
                return Some(order);
            }
            if roster.queue.is_over() {
                return None;
            }
            let bed = roster.sleepers.fall_asleep()?;
            roster = self.alarms.get(bed)?.wait(rt, roster);
            roster.sleepers.leave(bed);
        }
        unreachable!()
    }

    /// A thread has opened a room, as it was ordered to. It asks for its next order itself, so
    /// nobody is woken.
    pub(crate) fn end_opening(&self, rt: &impl Wait) {
        let mut roster = self.roster.lock(rt);
        roster.queue.end_opening();
        self.publish(&roster.queue);
    }

    /// A thread has closed a room, as it was ordered to. It asks for its next order itself.
    pub(crate) fn end_closing(&self, rt: &impl Wait) {
        let mut roster = self.roster.lock(rt);
        roster.queue.end_closing();
        self.publish(&roster.queue);
    }

    /// No more will come but from who takes them out. No room is opened or closed any more.
    pub(crate) fn end(&self, rt: &impl Wait) {
        let mut roster = self.roster.lock(rt);
        roster.queue.end();
        drop(roster);
        for alarm in &self.alarms {
            alarm.notify_all();
        }
    }
}

/// Returns whether less than this time has passed since then. False if the clock fails.
fn is_within(rt: &impl Clock, began: Instant, micros: u64) -> bool {
    match began.elapsed(rt) {
        Ok(time) => time < Duration::from_micros(micros),
        Err(_) => false,
    }
}
