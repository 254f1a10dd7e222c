//! The program over its arguments.

ghost use Rattle.std.specs.Prelude.{◌≡◌, ◌↔◌, IsNone};

use crate::platform::Platform;
use crate::serve::Service;
use byte_streams::Uninterrupted;
use clap::ArgMatches;
use command_fault::Fault;
use command_line::{grace, show_error};
use commands::{check_over, migrate_over, renew_over, renewed_over, script_over};
use room_watch::{follow_at, watch_at};
use std::alloc::Global;
use std::fs::File;
use std::io::{Read, Write};
use std::rt::Files;
use std::time::Duration;

/// This many seconds, or `None` for 0.
fn seconds(count: u64) -> Option<Duration>
    ensures { IsNone result ↔ (count ≡ 0) }
{
    if count == 0 {
        None
    } else {
        Some(Duration::from_secs(count))
    }
}

/// The options of `grace serve`, or `None` if a required argument is absent.
fn service_of<'a, 'w, R, W>(
    rt: &'a R,
    alloc: Global,
    words: &ArgMatches<'w>,
    output: &'a mut W,
) -> Option<Service<'a, 'w, R, W>> {
    let address = words.get_str("ADDRESS")?;
    let sessions = words.get_one("SESSIONS")?;
    let workers = words.get_one("WORKERS")?;
    let idle = words.get_one("idle")?;
    let report = words.get_one("report")?;
    let clients = words.get_one("clients")?;
    let close_after = words.get_one("close-after")?;
    Some(Service {
        rt,
        alloc,
        address,
        sessions,
        workers,
        clients,
        idle: seconds(idle),
        report: seconds(report),
        dir: words.get_str("keep"),
        is_confining: words.get_flag("by-path"),
        on_demand: words.get_one("rooms").unwrap_or(0),
        close_after,
        ends_with_input: words.get_flag("until-input-ends"),
        output,
    })
}

/// Runs `grace serve` with these options.
fn run_serve<H: Platform, W: Write, E: Write>(
    rt: &H,
    alloc: Global,
    words: &ArgMatches,
    output: &mut W,
    errors: &mut E,
) -> u8 {
    let names = words.get_strs("ROOM").unwrap_or(&[]);
    match (service_of(rt, alloc, words, output), words.get_str("keep")) {
        (Some(service), Some(dir)) => service.run_kept(dir, names, errors),
        (Some(service), None) => service.run(names, errors),
        (None, _) => 2,
    }
}

/// Runs `grace watch`.
fn run_watch<H: Platform, W: Write, E: Write>(
    rt: &H,
    alloc: Global,
    words: &ArgMatches,
    output: &mut W,
    errors: &mut E,
) -> u8 {
    match (words.get_str("ADDRESS"), words.get_str("ROOM")) {
        (Some(address), Some(room)) if words.get_flag("follow") => {
            follow_at(rt, alloc, address, room, output, errors)
        }
        (Some(address), Some(room)) => watch_at(rt, alloc, address, room, output, errors),
        _ => 2,
    }
}

/// Opens the file that this argument names.
///
/// # Errors
/// `Input` if the file cannot be opened.
fn file_of<H: Files>(
    rt: &H,
    words: &ArgMatches,
    name: &str,
) -> Result<Uninterrupted<H::File>, Fault> {
    let path = words.get_str(name).ok_or(Fault::Input)?;
    let stream = File::open(rt, path).map_err(|_| Fault::Input)?;
    Ok(Uninterrupted { stream })
}

/// Runs a command on files.
///
/// # Errors
/// `Input` if a file cannot be opened.
fn run_on_files<H: Files, W: Write, E: Write>(
    rt: &H,
    alloc: Global,
    matches: &ArgMatches,
    output: &mut W,
    errors: &mut E,
) -> Result<u8, Fault> {
    match matches.subcommand() {
        Some(("check", words)) => {
            let mut record = file_of(rt, words, "RECORD")?;
            let mut transcript = file_of(rt, words, "TRANSCRIPT")?;
            Ok(check_over(alloc, &mut record, &mut transcript, output, errors))
        }
        Some(("migrate", words)) => {
            let mut record = file_of(rt, words, "RECORD")?;
            Ok(migrate_over(alloc, &mut record, output, errors))
        }
        Some(("renew", words)) => {
            let mut record = file_of(rt, words, "RECORD")?;
            Ok(renew_over(alloc, &mut record, output, errors))
        }
        Some(("renewed", words)) => {
            let mut old = file_of(rt, words, "OLD")?;
            let mut new = file_of(rt, words, "NEW")?;
            Ok(renewed_over(alloc, &mut old, &mut new, output, errors))
        }
        // There is no other command.
        _ => Ok(2),
    }
}

/// Runs the command that was parsed.
fn run_parsed<H: Platform, R: Read, W: Write, E: Write>(
    rt: &H,
    alloc: Global,
    matches: &ArgMatches,
    input: &mut R,
    output: &mut W,
    errors: &mut E,
) -> u8 {
    match matches.subcommand() {
        Some(("script", words)) => {
            let names = words.get_strs("ROOM").unwrap_or(&[]);
            script_over(alloc, names, input, output, errors)
        }
        Some(("serve", words)) => run_serve(rt, alloc, words, output, errors),
        Some(("watch", words)) => run_watch(rt, alloc, words, output, errors),
        _ => match run_on_files(rt, alloc, matches, output, errors) {
            Ok(status) => status,
            Err(fault) => {
                fault.write_line(errors);
                fault.status()
            }
        },
    }
}

/// Runs the program. `words` are the program's name and its arguments. Returns the exit status:
///
/// - 0 on success;
/// - 1 if a record or a transcript does not hold, a record cannot be renewed, or two records do not
///   draw the same;
/// - 2 for a mistake in the command line;
/// - 3 if input, output, a connection, the rooms or the rooms' files failed;
/// - 4 if an allocation failed.
pub fn run<H: Platform, R: Read, W: Write, E: Write>(
    rt: &H,
    alloc: Global,
    words: &[String],
    input: &mut R,
    output: &mut W,
    errors: &mut E,
) -> u8 {
    let Ok(command) = grace(alloc) else {
        Fault::NoMemory.write_line(errors);
        return Fault::NoMemory.status();
    };
    match command.try_get_matches_from(words) {
        Ok(matches) => run_parsed(rt, alloc, &matches, input, output, errors),
        Err(error) => show_error(alloc, &error, output, errors),
    }
}
