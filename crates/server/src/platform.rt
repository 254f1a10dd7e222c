//! What the program runs on.

use log::Log;
use std::fs::File;
use std::net::{Net, TcpListener, TcpStream};
use std::random::RandomSource;
use std::rt::Files;
use std::sync::Wait;
use std::thread::Threads;
use std::time::Clock;

/// What the program runs on: files, threads, a clock, a log, randomness, and sockets of the system.
pub trait Platform: Files<File = File, Dir: Send>
    + Threads
    + Wait
    + Clock
    + Log
    + Net<Listener = TcpListener, Stream = TcpStream>
    + RandomSource
    + Sync {}

impl<H> Platform for H
where
    H: Files<File = File, Dir: Send>
        + Threads
        + Wait
        + Clock
        + Log
        + Net<Listener = TcpListener, Stream = TcpStream>
        + RandomSource
        + Sync,
{}
