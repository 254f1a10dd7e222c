//! The program: `main` over the library `server`.
#![tactic(auto)]

use byte_streams::Uninterrupted;
use log::{LevelFilter, Logged};
use server::StampedLog;
use std::env;
use std::io::{self, ErrorKind};
use std::process::ExitCode;
use std::rt::Env;

/// The arguments of the command line.
fn words(rt: &(impl Env + AllocGlobal)) -> io::Result<Vec<String>> {
    let words = env::args(rt)?.collect(rt.alloc())?;
    Ok(words)
}

fn main(rt: HostRuntime) -> ExitCode {
    match words(&rt) {
        Ok(words) => {
            let told = Logged::new(rt, LevelFilter::Info, StampedLog(rt));
            let mut input = Uninterrupted { stream: rt.stdin() };
            let mut output = Uninterrupted {
                stream: rt.stdout(),
            };
            let mut errors = Uninterrupted {
                stream: rt.stderr(),
            };
            ExitCode::from(server::run(
                &told,
                rt.alloc(),
                words.as_slice(),
                &mut input,
                &mut output,
                &mut errors,
            ))
        }
        Err(fault) => {
            if fault.kind() == ErrorKind::OutOfMemory {
                let _ = eprintln!(rt; "grace: no memory");
                ExitCode::from(4)
            } else {
                let _ = eprintln!(rt; "error: invalid UTF-8 was detected in one or more arguments");
                ExitCode::from(2)
            }
        }
    }
}
