//! The end of standard input, at which the server goes away.

use crate::platform::Platform;
use crate::server_observer::ServerObserver;
use log::{Log, info};
use loops::Bell;
use mio::unix::SourceFd;
use mio::{Events, Interest, Poll, Token, Waker};
use std::alloc::Global;
use std::fs::File;
use std::io;
use std::io::{ErrorKind, Read};
use std::net::TcpListener;
use std::os::fd::{AsRawFd, RawFd};
use std::sync::Wait;

/// Standard input, as a file of its own: the handle of std's cannot go to another thread.
const INPUT_PATH: &str = "/dev/stdin";

/// The token of the events of what is waited for.
const AWAITED: Token = Token(0);

/// The token of the waker's events.
const WAKE: Token = Token(1);

/// How many bytes of standard input are read at once.
const CHUNK_LEN: usize = 4096;

/// What a wait gave.
#[derive(Clone, Copy, Debug, PartialEq, Eq)]
enum Heard {
    /// The descriptor can be read.
    Awaited,
    /// The waker was woken.
    Over,
    /// A signal ended the wait.
    Nothing,
}

/// Waits until a descriptor can be read, or a waker is woken.
#[derive(Drop)]
pub(crate) struct Watch {
    poll: Poll,
    events: Events,
    descriptor: RawFd,
}

impl Watch {
    /// A watch over this descriptor, and what ends its wait.
    ///
    /// # Errors
    /// What the system says of a descriptor that cannot be waited for, as that of a file.
    fn over(rt: &impl Platform, alloc: Global, descriptor: RawFd) -> io::Result<(Watch, Waker)> {
        let poll = Poll::new(rt)?;
        let waker = Waker::new(poll.registry(), WAKE)?;
        let registry = poll.registry();
        registry.register(&mut SourceFd(&descriptor), AWAITED, Interest::READABLE)?;
        let events = Events::with_capacity(alloc, 2)?;
        Ok((
            Watch {
                poll,
                events,
                descriptor,
            },
            waker,
        ))
    }

    /// Waits. Returns false once the waker is woken.
    fn wait(&mut self, rt: &impl Wait) -> io::Result<bool> {
        // So that the system reports again what is left.
        let registry = self.poll.registry();
        registry.reregister(&mut SourceFd(&self.descriptor), AWAITED, Interest::READABLE)?;
        for _ in rt.forever() {
            match self.heard()? {
                Heard::Awaited => return Ok(true),
                Heard::Over => return Ok(false),
                Heard::Nothing => {}
            }
        }
        unreachable!()
    }

    /// Waits for one report of the system.
    fn heard(&mut self) -> io::Result<Heard> {
        match self.poll.poll(&mut self.events, None) {
            Ok(()) => {}
            Err(fault) if fault.kind() == ErrorKind::Interrupted => return Ok(Heard::Nothing),
            Err(fault) => return Err(fault),
        }
        let mut heard = Heard::Nothing;
        for event in &self.events {
            if event.token() == WAKE {
                return Ok(Heard::Over);
            }
            heard = Heard::Awaited;
        }
        Ok(heard)
    }
}

/// Where connections come in. The wait for one can be ended by a waker, which an accept could not.
#[derive(Drop)]
pub(crate) struct Door {
    watch: Watch,
}

impl Door {
    /// The door of this listener, and what ends its wait.
    ///
    /// # Errors
    /// What the system says.
    pub(crate) fn of(
        rt: &impl Platform,
        alloc: Global,
        listener: &TcpListener,
    ) -> io::Result<(Door, Waker)> {
        let (watch, waker) = Watch::over(rt, alloc, listener.as_raw_fd())?;
        Ok((Door { watch }, waker))
    }

    /// Waits for a connection. Returns false if the waker was woken, or waiting fails.
    pub(crate) fn wait(&mut self, rt: &impl Wait) -> bool {
        self.watch.wait(rt).unwrap_or(false)
    }
}

/// Standard input, up to its end.
#[derive(Drop)]
pub(crate) struct Ending {
    input: File,
    watch: Watch,
}

impl Ending {
    /// Standard input, and what ends the wait for its end. `None` if it is closed or cannot be
    /// waited for, as a file: then it is at its end.
    pub(crate) fn of_input(rt: &impl Platform, alloc: Global) -> Option<(Ending, Waker)> {
        let input = File::open(rt, INPUT_PATH).ok()?;
        let (watch, waker) = Watch::over(rt, alloc, input.as_raw_fd()).ok()?;
        Some((Ending { input, watch }, waker))
    }

    /// Waits for the end. Returns false if the waker is woken before.
    fn wait(&mut self, rt: &impl Wait) -> io::Result<bool> {
        for _ in rt.forever() {
            if !self.watch.wait(rt)? {
                return Ok(false);
            }
            if is_at_end(&mut self.input)? {
                return Ok(true);
            }
        }
        unreachable!()
    }
}

/// Reads once. Returns whether the input is at its end.
fn is_at_end(input: &mut File) -> io::Result<bool> {
    let mut chunk = [0u8; CHUNK_LEN];
    match input.read(&mut chunk) {
        Ok(count) => Ok(count == 0),
        Err(fault) => match fault.kind() {
            ErrorKind::Interrupted | ErrorKind::WouldBlock => Ok(false),
            _ => Err(fault),
        },
    }
}

/// Has the server go away when standard input ends.
#[derive(Drop)]
pub(crate) struct Departure<'a, R> {
    pub(crate) rt: &'a R,
    pub(crate) observer: &'a ServerObserver<'a, R>,
    pub(crate) bell: &'a Bell,
    /// Wakes the thread that waits for connections.
    pub(crate) door: Waker,
    /// `None` if the input is at its end from the start.
    pub(crate) ending: Option<Ending>,
}

/// The parts of a departure.
#[derive(Drop)]
pub(crate) struct Parts<'a, R> {
    /// Runs in a thread of its own.
    pub(crate) departure: Departure<'a, R>,
    /// Ends that thread if the server has ended before; `None` if it ends by itself.
    pub(crate) over: Option<Waker>,
    /// Where connections come in.
    pub(crate) door: Door,
}

impl<'a, R: Platform> Parts<'a, R> {
    /// The parts for a server that accepts from this listener.
    ///
    /// # Errors
    /// What the system says.
    pub(crate) fn new(
        alloc: Global,
        observer: &'a ServerObserver<'a, R>,
        bell: &'a Bell,
        listener: &TcpListener,
    ) -> io::Result<Parts<'a, R>> {
        let rt = observer.runtime();
        let (door, wakes) = Door::of(rt, alloc, listener)?;
        let (ending, over) = match Ending::of_input(rt, alloc) {
            Some((ending, over)) => (Some(ending), Some(over)),
            None => (None, None),
        };
        let departure = Departure {
            rt,
            observer,
            bell,
            door: wakes,
            ending,
        };
        Ok(Parts {
            departure,
            over,
            door,
        })
    }
}

impl<R: Wait + Log> Departure<'_, R> {
    /// Waits for the end of standard input, and then has the server go away. Returns without that
    /// if the waker is woken before. An input that cannot be read is at its end. Gives the waker of
    /// the door, whose news would be lost with it.
    pub(crate) fn run(self) -> Waker {
        let Departure {
            rt,
            observer,
            bell,
            door,
            ending,
        } = self;
        let has_ended = match ending {
            Some(mut ending) => ending.wait(rt).unwrap_or(true),
            None => true,
        };
        if has_ended {
            info!(rt; "the input ended; the server goes away");
            observer.go_away();
            bell.go_away(rt);
            let _ = door.wake();
        }
        door
    }
}
