//! Running loops, each in a thread of its own.

ghost use Rattle.std.specs.Prelude.{◌≡◌, ◌+◌, if◌then◌else◌, nat_lt};
ghost use Rattle.std.specs.Iterator.{IsFinite};

use crate::bell::Bell;
use crate::burden::Burden;
use crate::client::{Arrival, Client};
use crate::ending::Ending;
use crate::event_loop::run_loop;
use crate::fault::LoopsFault;
use crate::mail::Handed;
use crate::parts::Parts;
use crate::seats::Seats;
use crate::service::Service;
use crate::shared::Shared;
use crate::times::millis_of;
use mio::Poll;
use std::alloc::{AllocError, Global};
use std::net::OpenStream;
use std::sync::Wait;
use std::thread;
use std::thread::Threads;
use std::time::{Clock, Duration, Instant};

/// The limits of loops.
#[derive(Clone, Copy)]
pub struct Settings {
    /// The most sessions at a time.
    pub clients: usize,
    /// How long a client may be silent, and how long it may leave what is sent to it; `None` for no
    /// limit.
    pub idle: Option<Duration>,
}

/// What loops run on.
#[derive(Drop)]
pub struct Loops<'a, R, S> {
    /// The runtime.
    pub rt: &'a R,
    /// The allocator.
    pub alloc: Global,
    /// What is served.
    pub service: &'a S,
    /// The bell that wakes the loops.
    pub bell: &'a Bell,
    /// The limits.
    pub settings: Settings,
}

impl<'a, R, S> Loops<'a, R, S> {
    /// What the loops share.
    fn shared(&self) -> Shared<'a, R, S> {
        Shared {
            rt: self.rt,
            alloc: self.alloc,
            service: self.service,
            bell: self.bell,
            seats: Seats::new(self.settings.clients),
            burden: Burden::new(),
            idle: self.settings.idle.map(millis_of),
        }
    }
}

/// Serves what arrives, by a loop for each of these polls, which came with the bell. Sessions are
/// numbered as their arrivals, from 1. Returns once there are no more arrivals, or the server goes
/// away, and the last connection has ended. The arrival after `Bell::go_away` ends the arrivals,
/// and is dropped.
///
/// # Errors
/// `NoLoop` if no thread could be started.
/// `NoMemory` if an allocation for the loops failed.
pub fn run_loops<R, S, I>(
    loops: &Loops<'_, R, S>,
    polls: Vec<Poll>,
    arrivals: I,
) -> Result<(), LoopsFault>
where
    R: Threads + Wait + Clock + Sync,
    S: Service + Sync,
    S::Session: Send,
    S::Reported: Send,
    S::Receipt: Send,
    S::Scratch: Drop + Send,
    I: Iterator<Item = Arrival> + Drop,
    requires can { I.can_next arrivals }
    requires ends { IsFinite (I.remaining arrivals) }
{
    let (rt, alloc) = (loops.rt, loops.alloc);
    let parts = parts_of(alloc, polls, loops.bell.places())?;
    let mut threads = Vec::with_capacity(alloc, parts.len())?;
    let began = match Instant::now(rt) {
        Ok(began) => began,
        Err(_) => return Err(LoopsFault::NoLoop),
    };
    let hall = loops.shared();
    let shared = &hall;
    thread::scope(
        thread::scope_env(),
        rt,
        move |scope| -> Result<(), LoopsFault>
            requires { I.can_next arrivals × IsFinite (I.remaining arrivals) }
        {
            for part in parts {
                let Ok(thread) = scope.spawn(move || run_loop(shared, part, began)) else {
                    break;
                };
                let _ = threads.push(thread);
            }
            let count = threads.len();
            if count == 0 {
                return Err(LoopsFault::NoLoop);
            }
            hand_over(shared, count, arrivals);
            shared.bell.end(rt);
            for thread in threads {
                thread.join(rt);
            }
            Ok(())
        },
    )
}

/// What a loop for each of these polls is made of.
fn parts_of(alloc: Global, polls: Vec<Poll>, places: usize) -> Result<Vec<Parts>, AllocError> {
    let mut parts = Vec::with_capacity(alloc, polls.len())?;
    let mut number: usize = 0;
    for poll in polls {
        parts.push(Parts::new(alloc, number, poll, places)?)?;
        number = number.saturating_add(1);
    }
    Ok(parts)
}

/// Hands what arrives to the first `count` loops, one after the other, numbered from 1. What
/// arrives once the server goes away is dropped.
fn hand_over<R: Wait, S: Service, I: Iterator<Item = Arrival> + Drop>(
    shared: &Shared<'_, R, S>,
    count: usize,
    arrivals: I,
)
    requires can { I.can_next arrivals }
    requires ends { IsFinite (I.remaining arrivals) }
{
    let mut session: u64 = 0;
    let mut number: usize = 0;
    for arrival in arrivals {
        if shared.bell.is_away(shared.rt) {
            return;
        }
        session = session.saturating_add(1);
        number = next_number(number, count);
        hand_to(shared, number, count, Handed { session, arrival });
    }
}

/// The number after this one, of the first `count`.
fn next_number(number: usize, count: usize) -> usize
    ensures { result ≡ (if nat_lt (number + 1) count then number + 1 else 0) }
{
    if number < count && count - number > 1 {
        number + 1
    } else {
        0
    }
}

/// Hands an arrival to the loop of this number, or else to another. If none takes it, its session
/// ends.
fn hand_to<R: Wait, S: Service>(
    shared: &Shared<'_, R, S>,
    number: usize,
    count: usize,
    handed: Handed,
) {
    let client = Client {
        session: handed.session,
        address: handed.arrival.address,
    };
    if handed.arrival.stream.set_nonblocking(true).is_err() {
        shared.refuse(&client, Ending::Stream);
        return;
    }
    let mut left = handed;
    for other in (number..count).chain(0..number) {
        match shared.bell.hand_over(shared.rt, other, left) {
            Ok(()) => return,
            Err(handed) => left = handed,
        }
    }
    shared.refuse(&client, Ending::Stream);
}
