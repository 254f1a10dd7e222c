//! The threads of a host's keeper.

use crate::host::Host;
use crate::observer::Observer;
use crossbeam_channel::Receiver;
use keeper::Keeper;
use room_lock::RoomHistories;
use std::sync::Wait;
use std::time::{Clock, Duration};

/// The period of the ticks of a keeper, in seconds.
const TICK_SECONDS: u64 = 1;

/// Does what is to be done for the keeper, until that is ended. Tells the observer what was synced
/// and what changes, and wakes the loops in which answers wait.
pub(crate) fn keep_rooms<P, R, O, K>(host: &Host<'_, P, R, O, K>)
where
    P: RoomHistories,
    R: Wait + Clock,
    O: Observer,
    K: Keeper<P>,
{
    for _ in host.rt.forever() {
        let Some(attempt) = host.keeper.keep_next(host.rt, host.alloc, host.rooms) else {
            return;
        };
        if let Some(sync) = attempt.sync {
            host.observer.after_sync(sync);
        }
        if let Some(change) = &attempt.change {
            host.observer.after_change(change);
        }
        ring(host, &attempt.news);
    }
}

/// Wakes the loops in which something waits at these places.
fn ring<P: RoomHistories, R: Wait, O, K>(host: &Host<'_, P, R, O, K>, places: &[Option<usize>]) {
    for place in places.iter().flatten() {
        host.bell.ring(host.rt, *place);
    }
}

/// Lets the keeper hear each second that one has passed, until the other end of the channel is
/// dropped.
pub(crate) fn tick_keeper<P, R, O, K>(host: &Host<'_, P, R, O, K>, stop: &Receiver<()>)
where
    P: RoomHistories,
    R: Wait + Clock,
    K: Keeper<P>,
{
    for _ in host.rt.forever() {
        match stop.recv_timeout(host.rt, Duration::from_secs(TICK_SECONDS)) {
            Err(fault) if fault.is_timeout() => host.keeper.tick(host.rt, host.rooms),
            _ => return,
        }
    }
}
