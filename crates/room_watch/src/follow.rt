//! `grace watch --follow ADDRESS ROOM`: shows the objects of a live room, and then each change.

ghost use Rattle.std.specs.Prelude.{◌≡◌, ◌++◌, IfOk, OnOk, map, string_bytes};
ghost use Rattle.std.specs.Arc.{arc_value};
ghost use Rattle.late_join.specs.Replica.{with_entries, with_taken};
ghost use Rattle.room_watch.specs.steps.Lines.{added_line, added_lines};

use crate::fault::WatchFault;
use crate::session::{Asks, connect, reply_to, session_over};
use crate::watch::{leave_room, line_of, newest_of, show_room, status_of, write_lines};
use base_types::RoomName;
use command_fault::Fault;
use late_join::Replica;
use rules::Entry;
use std::alloc::Global;
use std::io::{Read, Write};
use std::net::Net;
use std::random::RandomSource;
use std::sync::Arc;
use std::thread;
use std::time::{Clock, Duration};
use wire::{EntryList, Reply, Request};

/// The pause after a wait that brought no entry, in milliseconds. Few come from a server that holds
/// waits.
const PAUSE_MILLISECONDS: u64 = 100;

/// How often a server is asked for the room that goes on with one that has ended.
const MAX_ASKS: u32 = 100;

/// Takes an entry, and adds the line of the object that it creates or changes.
fn take_entry(
    alloc: Global,
    replica: &mut Replica,
    entry: &Entry,
    lines: &mut String,
) -> Result<(), WatchFault>
    ensures taken { OnOk result (replica.new ≡ with_taken replica.old entry.now) }
    ensures lines { OnOk result (string_bytes lines.new
        ≡ string_bytes lines.old ++ added_line replica.old.taken entry.now) }
{
    let copy = entry.copy(alloc)?;
    replica.take(alloc, copy)?;
    if let Entry::Operation(op) = entry {
        let line = line_of(alloc, replica, op.object())?;
        lines.push_str(line.as_str())?;
    }
    Ok(())
}

/// Takes entries of the record in order. Returns the lines that they add: for each operation what
/// the replica then shows of the object that it creates or changes.
///
/// # Errors
/// `Session` if the replica refused an entry. Those before it were taken.
/// `NoMemory` if an allocation failed. Some of the entries may have been taken.
pub fn lines_of_entries(
    alloc: Global,
    replica: &mut Replica,
    entries: &[Arc<Entry>],
) -> Result<String, WatchFault>
    ensures taken { OnOk result
        (replica.new ≡ with_entries replica.old (map arc_value entries.now)) }
    ensures lines { IfOk result (λ lines. string_bytes lines
        ≡ added_lines replica.old.taken (map arc_value entries.now)) }
{
    let mut lines = String::new(alloc);
    for entry in entries {
        take_entry(alloc, replica, entry, &mut lines)?;
    }
    Ok(lines)
}

/// The entries of a page that begins at this place. `None` if the reply is no such page.
fn entries_from(reply: Reply, from: u32) -> Option<EntryList> {
    match reply {
        Reply::Entries {
            at: _,
            from: place,
            entries,
        } => (place == from).then_some(entries),
        other => {
            drop(other);
            None
        }
    }
}

/// Waits for entries, and takes them. Returns the lines that they add, which are none if none came.
fn news<A: Asks>(
    alloc: Global,
    session: &mut A,
    replica: &mut Replica,
) -> Result<String, WatchFault> {
    let from = replica.count_taken();
    let reply = reply_to(alloc, session, Request::Pull { from, waits: true })?;
    match entries_from(reply, from) {
        Some(entries) => lines_of_entries(alloc, replica, entries.as_slice()),
        None => Err(WatchFault::Session),
    }
}

/// Leaves the room, which has ended. Returns the newest one of the chain of this room, once the
/// server knows it.
fn leave_for_newest<C: Clock, A: Asks>(
    clock: &C,
    alloc: Global,
    session: &mut A,
    room: &RoomName,
) -> Result<RoomName, WatchFault> {
    leave_room(alloc, session)?;
    for _ask in 0..MAX_ASKS {
        if let Some(newest) = newest_of(alloc, session, room)? {
            return Ok(newest);
        }
        thread::sleep(clock, Duration::from_millis(PAUSE_MILLISECONDS));
    }
    Err(WatchFault::Session)
}

/// Waits for entries, takes them, and writes the lines that they add.
fn write_news<C: Clock, A: Asks, W: Write>(
    clock: &C,
    alloc: Global,
    session: &mut A,
    replica: &mut Replica,
    output: &mut W,
) -> Result<(), WatchFault> {
    let before = replica.count_taken();
    let lines = news(alloc, session, replica)?;
    if replica.count_taken() == before {
        thread::sleep(clock, Duration::from_millis(PAUSE_MILLISECONDS));
        return Ok(());
    }
    write_lines(output, lines.as_str())
}

/// Writes the lines of all objects of a room, and then those of news until the room ends.
fn follow_room<C: Clock, A: Asks, W: Write>(
    clock: &C,
    alloc: Global,
    session: &mut A,
    room: &RoomName,
    output: &mut W,
) -> Result<(), WatchFault> {
    let mut replica = show_room(alloc, session, room, output)?;
    for _wait in 0..u64::MAX {
        write_news(clock, alloc, session, &mut replica, output)?;
        if replica.has_ended() {
            return Ok(());
        }
    }
    Err(WatchFault::Session)
}

/// Follows the room, and where it ends the one that goes on with it, until the session or the
/// output fails. Returns the fault.
fn follow<C: Clock, A: Asks, W: Write>(
    clock: &C,
    alloc: Global,
    session: &mut A,
    room: &RoomName,
    output: &mut W,
) -> Result<(), WatchFault> {
    follow_room(clock, alloc, session, room, output)?;
    for _room in 0..u64::MAX {
        let newest = leave_for_newest(clock, alloc, session, room)?;
        follow_room(clock, alloc, session, &newest, output)?;
    }
    Err(WatchFault::Session)
}

/// Enters the room of this name over a stream, and writes the lines that `watch_over` writes. Then
/// it waits for each new entry, and takes it. For an entry that creates or changes an object it
/// writes the object's line again, as the record up to this entry shows it. Where the record ends,
/// it enters the newest room of the chain, writes the lines of its objects, and goes on there.
/// Writes the lines of each page by one call. It goes on until something fails, so the result is
/// never `Ok`.
///
/// # Errors
/// `Session` if the stream ended or failed, or the server sent an unexpected message.
/// `Write` if the output failed, as when its reader has gone away.
/// `NoMemory` if an allocation failed.
pub fn follow_over<R, S, W>(
    rt: &R,
    alloc: Global,
    stream: S,
    room: &RoomName,
    output: &mut W,
) -> Result<(), WatchFault>
where
    R: RandomSource + Clock,
    S: Read + Write + Drop,
    W: Write,
{
    let mut socket = session_over(rt, alloc, stream, room)?;
    follow(rt, alloc, &mut socket, room, output)
}

/// Connects, shows the room, and follows it.
fn connect_and_follow<R, W>(
    rt: &R,
    alloc: Global,
    address: &str,
    room: &str,
    output: &mut W,
) -> Result<(), Fault>
where
    R: Net + RandomSource + Clock,
    W: Write,
{
    let room = RoomName::parse(alloc, room.as_bytes())?;
    let stream = connect(rt, address)?;
    follow_over(rt, alloc, stream, &room, output)?;
    Ok(())
}

/// Shows the objects of the room of this name on the server at this address, and then each change
/// as it comes. Returns the exit status when something has failed:
///
/// - 2 for a bad room name;
/// - 3 if connecting, the session or the output failed, also at the end of the connection;
/// - 4 if an allocation failed.
///
/// It writes a line to `errors`.
pub fn follow_at<R, W, E>(
    rt: &R,
    alloc: Global,
    address: &str,
    room: &str,
    output: &mut W,
    errors: &mut E,
) -> u8
where
    R: Net + RandomSource + Clock,
    W: Write,
    E: Write,
{
    status_of(connect_and_follow(rt, alloc, address, room, output), errors)
}
