//! The connections that a listener accepts.

ghost use Rattle.std.specs.Iterator.{at_most};

use crate::departure::Door;
use crate::server_observer::ServerObserver;
use log::{Log, warn};
use loops::Arrival;
use std::net::{SocketAddr, TcpListener, TcpStream};
use std::sync::Wait;
use std::sync::atomic::{AtomicBool, Ordering};
use std::time::{Clock, Duration};
use std::{io, thread};

/// How long to wait where no descriptor is left, in milliseconds.
const PAUSE_MILLIS: u64 = 100;

/// The error numbers of a system (`ENFILE`) and of a process (`EMFILE`) that have no descriptor
/// left.
const NO_DESCRIPTOR: [i32; 2] = [23, 24];

/// The error number of a connection that was gone before it was accepted (`ECONNABORTED`).
const ABORTED: i32 = 103;

/// The next connections of a listener. Ends once there may be no more sessions, the server goes
/// away, or accepting fails.
#[derive(Drop)]
pub(crate) struct Accepted<'a, 'f, R> {
    pub(crate) listener: &'a TcpListener,
    pub(crate) observer: &'a ServerObserver<'a, R>,
    /// The most connections. Probes are no sessions, so nothing else bounds their number.
    pub(crate) left: u64,
    /// Waits for the next connection if the server may go away meanwhile.
    pub(crate) door: Option<Door>,
    /// Whether a warning was logged since a connection was last accepted at once.
    pub(crate) is_told: bool,
    /// Set once accepting has failed.
    pub(crate) failed: &'f AtomicBool,
}

impl<'a, 'f, R> Accepted<'a, 'f, R> {
    /// The connections of a listener. None was accepted yet, and the server does not go away.
    pub(crate) fn new(
        listener: &'a TcpListener,
        observer: &'a ServerObserver<'a, R>,
        failed: &'f AtomicBool,
    ) -> Accepted<'a, 'f, R> {
        Accepted {
            listener,
            observer,
            left: u64::MAX,
            door: None,
            is_told: false,
            failed,
        }
    }
}

impl<R: Wait + Clock + Log> Iterator for Accepted<'_, '_, R> {
    type Item = Arrival;

    ghost remaining = { λ s. at_most s.left };

    fn next(&mut self) -> Option<Arrival> {
        if self.left == 0 || !self.observer.let_in() {
            return None;
        }
        self.left -= 1;
        let arrival = accept(
            self.observer,
            self.listener,
            &mut self.door,
            &mut self.is_told,
        );
        if arrival.is_none() {
            self.failed
                .store(!self.observer.is_away(), Ordering::SeqCst);
        }
        arrival
    }
}

/// The next connection, or `None` if accepting fails or the server goes away. Waits where no
/// descriptor is left, and warns of it unless `is_told`, which it sets to whether it waited.
fn accept<R: Wait + Clock + Log>(
    observer: &ServerObserver<'_, R>,
    listener: &TcpListener,
    door: &mut Option<Door>,
    is_told: &mut bool,
) -> Option<Arrival> {
    let rt = observer.runtime();
    let mut has_waited = false;
    for _ in rt.forever() {
        if !is_open(observer, door) {
            return None;
        }
        match listener.accept() {
            Ok((stream, address)) => {
                *is_told = has_waited;
                return Some(arrival(stream, address));
            }
            Err(fault) if is_no_descriptor(&fault) => {
                if !*is_told {
                    warn!(rt; "no descriptor is left for another connection");
                    *is_told = true;
                }
                has_waited = true;
                thread::sleep(rt, Duration::from_millis(PAUSE_MILLIS));
            }
            Err(fault) if fault.raw_os_error() == Some(ABORTED) => {}
            Err(_) => return None,
        }
    }
    unreachable!()
}

/// Waits at the door, if there is one. Returns whether the server takes connections still.
fn is_open<R: Wait + Log>(observer: &ServerObserver<'_, R>, door: &mut Option<Door>) -> bool {
    match door {
        Some(door) => door.wait(observer.runtime()) && !observer.is_away(),
        None => true,
    }
}

/// Returns whether no descriptor was left.
fn is_no_descriptor(fault: &io::Error) -> bool {
    match fault.raw_os_error() {
        Some(number) => NO_DESCRIPTOR.contains(&number),
        None => false,
    }
}

/// The connection as an arrival. Disables Nagle's algorithm, since a client with several requests
/// in flight would otherwise wait for each reply. Serves the stream without a setting that fails.
fn arrival(stream: TcpStream, address: SocketAddr) -> Arrival {
    let _ = stream.set_nodelay(true);
    Arrival {
        stream,
        address: Some(address),
    }
}
