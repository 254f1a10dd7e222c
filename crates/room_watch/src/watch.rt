//! `grace watch ADDRESS ROOM`: shows the objects of a live room by a replica.

ghost use Rattle.std.specs.Prelude.{◌≡◌, IfOk, string_bytes};
ghost use Rattle.room_watch.specs.steps.Lines.{shown_line};

use crate::fault::WatchFault;
use crate::session::{Asks, close, connect, reply_to, session_over, text_for};
use base_types::{MAX_SITE, OpName, RoomName};
use command_fault::Fault;
use late_join::Replica;
use rules::{Limits, Refusal};
use std::alloc::Global;
use std::io::{Read, Write};
use std::net::Net;
use std::random::RandomSource;
use tungstenite::{MaskKeys, WebSocket};
use wire::{Reply, Request, write_reply};

/// What asking to enter a room gave.
#[derive(Drop)]
enum EnterReply {
    /// The session is in the room.
    Entered,
    /// The site is in use.
    InUse,
    /// The room has no such site.
    NoSite,
    /// The room's chain goes on in this one.
    Renewed(RoomName),
    /// Another refusal.
    Refused,
    /// A reply to another request.
    Other,
}

impl EnterReply {
    /// What this reply gave.
    fn of(reply: Reply) -> EnterReply {
        match reply {
            Reply::Joined { .. } | Reply::Returned { .. } => EnterReply::Entered,
            Reply::Renewed { at: _, room } => EnterReply::Renewed(room),
            Reply::No { at: _, refusal } => match refusal {
                Refusal::SiteInUse => EnterReply::InUse,
                Refusal::NoSuchSite => EnterReply::NoSite,
                _ => EnterReply::Refused,
            },
            other => {
                drop(other);
                EnterReply::Other
            }
        }
    }
}

/// Asks to enter a room.
fn ask_to_enter<A: Asks>(
    alloc: Global,
    session: &mut A,
    request: Request,
) -> Result<EnterReply, WatchFault> {
    Ok(EnterReply::of(reply_to(alloc, session, request)?))
}

/// Asks to join a room.
fn ask_to_join<A: Asks>(
    alloc: Global,
    session: &mut A,
    room: RoomName,
) -> Result<EnterReply, WatchFault> {
    ask_to_enter(alloc, session, Request::Join { room })
}

/// Asks to come back to a room.
fn ask_to_come_back<A: Asks>(
    alloc: Global,
    session: &mut A,
    room: RoomName,
    site: u32,
) -> Result<EnterReply, WatchFault> {
    ask_to_enter(alloc, session, Request::Back { room, site })
}

/// Comes back as the first site of the room that no session is in as.
fn come_back<A: Asks>(
    alloc: Global,
    session: &mut A,
    room: &RoomName,
) -> Result<EnterReply, WatchFault> {
    for site in 1..=MAX_SITE {
        match ask_to_come_back(alloc, session, room.copy(alloc)?, site)? {
            EnterReply::InUse => {}
            EnterReply::Refused | EnterReply::Other => return Err(WatchFault::Session),
            entrance => return Ok(entrance),
        }
    }
    Ok(EnterReply::NoSite)
}

/// Joins the room of this name.
fn join<A: Asks>(
    alloc: Global,
    session: &mut A,
    room: &RoomName,
) -> Result<EnterReply, WatchFault> {
    match ask_to_join(alloc, session, room.copy(alloc)?)? {
        EnterReply::Entered => Ok(EnterReply::Entered),
        EnterReply::Renewed(newest) => Ok(EnterReply::Renewed(newest)),
        _ => Err(WatchFault::Session),
    }
}

/// Enters the room of this name: as a site that no session is in as, or else as the next site.
/// Gives the room in which its chain goes on, if it was not entered for that.
fn enter<A: Asks>(
    alloc: Global,
    session: &mut A,
    room: &RoomName,
) -> Result<Option<RoomName>, WatchFault> {
    let entrance = match come_back(alloc, session, room)? {
        EnterReply::NoSite => join(alloc, session, room)?,
        entrance => entrance,
    };
    match entrance {
        EnterReply::Entered => Ok(None),
        EnterReply::Renewed(newest) => Ok(Some(newest)),
        _ => Err(WatchFault::Session),
    }
}

/// Enters the room of this name, or the newest of its chain, and reads its record into a replica.
fn enter_and_pull<A: Asks>(
    alloc: Global,
    session: &mut A,
    room: &RoomName,
) -> Result<Replica, WatchFault> {
    if let Some(newest) = enter(alloc, session, room)?
        && enter(alloc, session, &newest)?.is_some()
    {
        return Err(WatchFault::Session);
    }
    pull_record(alloc, session)
}

/// The newest room of the chain of this room, which has ended: `None` if the server knows none. The
/// session is in no room.
pub(crate) fn newest_of<A: Asks>(
    alloc: Global,
    session: &mut A,
    room: &RoomName,
) -> Result<Option<RoomName>, WatchFault> {
    match ask_to_join(alloc, session, room.copy(alloc)?)? {
        EnterReply::Renewed(newest) => Ok(Some(newest)),
        EnterReply::InUse | EnterReply::NoSite | EnterReply::Refused => Ok(None),
        EnterReply::Entered | EnterReply::Other => Err(WatchFault::Session),
    }
}

/// Asks for the next page of the record, and takes its entries. Returns whether that was the last.
fn pull_page<A: Asks>(
    alloc: Global,
    session: &mut A,
    replica: &mut Replica,
) -> Result<bool, WatchFault> {
    let from = replica.count_taken();
    let page = text_for(alloc, session, Request::Pull { from, waits: false })?;
    let fed = replica.feed_page(alloc, page.as_bytes())?;
    let taken = replica.count_taken();
    if fed.from != from || taken > fed.at || (taken != fed.at && fed.count == 0) {
        return Err(WatchFault::Session);
    }
    Ok(taken == fed.at)
}

/// Takes the entries of all pages that are left.
fn pull_pages<A: Asks>(
    alloc: Global,
    session: &mut A,
    replica: &mut Replica,
) -> Result<(), WatchFault> {
    // Each page but the last has an entry, so there are at most this many pages.
    for _page in 0..=Limits::MAX_ENTRIES {
        if pull_page(alloc, session, replica)? {
            return Ok(());
        }
    }
    Err(WatchFault::Session)
}

/// A replica of the whole record, read page by page.
fn pull_record<A: Asks>(alloc: Global, session: &mut A) -> Result<Replica, WatchFault> {
    let mut replica = Replica::new(alloc, Limits::full())?;
    pull_pages(alloc, session, &mut replica)?;
    Ok(replica)
}

/// The line of what the replica shows of an object.
pub(crate) fn line_of(
    alloc: Global,
    replica: &Replica,
    object: OpName,
) -> Result<String, WatchFault>
    ensures { IfOk result (λ line. string_bytes line ≡ shown_line replica.now.taken object) }
{
    let reply = replica.show(alloc, object)?;
    let text = write_reply(alloc, &reply);
    drop(reply);
    let mut line = text?;
    line.push('\n')?;
    Ok(line)
}

/// Adds the line of an object.
fn push_line(
    alloc: Global,
    lines: &mut String,
    replica: &Replica,
    object: OpName,
) -> Result<(), WatchFault> {
    let line = line_of(alloc, replica, object)?;
    lines.push_str(line.as_str())?;
    Ok(())
}

/// The lines of all objects.
fn lines_of(alloc: Global, replica: &Replica) -> Result<String, WatchFault> {
    let mut lines = String::new(alloc);
    for object in &replica.objects(alloc)? {
        push_line(alloc, &mut lines, replica, *object)?;
    }
    Ok(lines)
}

/// Leaves the room.
pub(crate) fn leave_room<A: Asks>(alloc: Global, session: &mut A) -> Result<(), WatchFault> {
    let reply = reply_to(alloc, session, Request::Leave)?;
    let has_left = matches!(reply, Reply::Left { .. });
    drop(reply);
    if has_left {
        Ok(())
    } else {
        Err(WatchFault::Session)
    }
}

/// Writes the lines, and flushes the output.
pub(crate) fn write_lines<W: Write>(output: &mut W, lines: &str) -> Result<(), WatchFault> {
    if output.write_all(lines.as_bytes()).is_err() || output.flush().is_err() {
        return Err(WatchFault::Write);
    }
    Ok(())
}

/// Leaves the room, which has ended, and enters the newest of its chain.
fn go_on<A: Asks>(alloc: Global, session: &mut A, room: &RoomName) -> Result<Replica, WatchFault> {
    leave_room(alloc, session)?;
    let newest = newest_of(alloc, session, room)?;
    enter_and_pull(alloc, session, newest.as_ref().unwrap_or(room))
}

/// Enters the room of this name, or the newest of its chain if it has ended. Returns the replica
/// that it read.
fn enter_newest<A: Asks>(
    alloc: Global,
    session: &mut A,
    room: &RoomName,
) -> Result<Replica, WatchFault> {
    let replica = enter_and_pull(alloc, session, room)?;
    if !replica.has_ended() {
        return Ok(replica);
    }
    drop(replica);
    go_on(alloc, session, room)
}

/// Writes the lines of all objects.
fn show_objects<W: Write>(
    alloc: Global,
    replica: &Replica,
    output: &mut W,
) -> Result<(), WatchFault> {
    let lines = lines_of(alloc, replica)?;
    write_lines(output, lines.as_str())
}

/// Enters the room of this name, or the newest of its chain if it has ended, and writes the lines
/// of all its objects. Returns the replica that it read.
pub(crate) fn show_room<A: Asks, W: Write>(
    alloc: Global,
    session: &mut A,
    room: &RoomName,
    output: &mut W,
) -> Result<Replica, WatchFault> {
    let replica = enter_newest(alloc, session, room)?;
    show_objects(alloc, &replica, output)?;
    Ok(replica)
}

/// Enters the room of this name over a stream, or the newest room of its chain if that room has
/// ended and the server knows a later one, and reads its record into a replica. Writes what the
/// replica shows of each object, one line each in the order of the record. Then leaves the room and
/// closes the session. Comes back as the first site that no session is in as, or joins if there is
/// none. Writes all lines by one call.
///
/// # Errors
/// `Session` if the stream failed or the server sent an unexpected message, such as a refused join.
/// `Write` if the output failed.
/// `NoMemory` if an allocation failed.
pub fn watch_over<R, S, W>(
    rt: &R,
    alloc: Global,
    stream: S,
    room: &RoomName,
    output: &mut W,
) -> Result<(), WatchFault>
where
    R: RandomSource,
    S: Read + Write + Drop,
    W: Write,
{
    let mut socket = session_over(rt, alloc, stream, room)?;
    show_and_close(alloc, &mut socket, room, output)
}

/// Enters the room, writes the lines of all objects, leaves the room and closes the session.
fn show_and_close<S, K, W>(
    alloc: Global,
    socket: &mut WebSocket<S, K>,
    room: &RoomName,
    output: &mut W,
) -> Result<(), WatchFault>
where
    S: Read + Write + Drop,
    K: MaskKeys + Drop,
    W: Write,
{
    drop(show_room(alloc, socket, room, output)?);
    leave_room(alloc, socket)?;
    close(socket)
}

/// Connects, and shows the room.
fn watch<R, W>(
    rt: &R,
    alloc: Global,
    address: &str,
    room: &str,
    output: &mut W,
) -> Result<(), Fault>
where
    R: Net + RandomSource,
    W: Write,
{
    let room = RoomName::parse(alloc, room.as_bytes())?;
    let stream = connect(rt, address)?;
    watch_over(rt, alloc, stream, &room, output)?;
    Ok(())
}

/// The exit status of the end. Before all but 0 it writes a line to `errors`.
pub(crate) fn status_of<E: Write>(end: Result<(), Fault>, errors: &mut E) -> u8 {
    match end {
        Ok(()) => 0,
        Err(fault) => {
            fault.write_line(errors);
            fault.status()
        }
    }
}

/// Shows the objects of the room of this name on the server at this address, and returns the exit
/// status:
///
/// - 0 if all were shown and the session was closed;
/// - 2 for a bad room name;
/// - 3 if connecting, the session or the output failed;
/// - 4 if an allocation failed.
///
/// Before all but 0 it writes a line to `errors`.
pub fn watch_at<R, W, E>(
    rt: &R,
    alloc: Global,
    address: &str,
    room: &str,
    output: &mut W,
    errors: &mut E,
) -> u8
where
    R: Net + RandomSource,
    W: Write,
    E: Write,
{
    status_of(watch(rt, alloc, address, room, output), errors)
}
