//! The commands, their arguments and their options.

use clap::{Arg, ArgAction, Command, value_parser};
use std::alloc::{AllocError, Global};

/// The version that `--version` prints. docs/DECISIONS.md says what the number means.
pub const VERSION: &str = "0.4.0";

/// A required argument.
fn word<'a>(alloc: Global, name: &'a str, help: &'a str) -> Arg<'a> {
    Arg::new(alloc, name)
        .required(true)
        .action(ArgAction::Set)
        .help(help)
}

/// The option for the timeout of a client.
fn idle<'a>(alloc: Global) -> Arg<'a> {
    Arg::new(alloc, "idle")
        .long("idle")
        .value_name("SECONDS")
        .action(ArgAction::Set)
        .value_parser(value_parser!(u32))
        .default_value("60")
        .help("How long to wait for a silent or blocked client; 0 waits forever")
}

/// The option for the period of reports.
fn report<'a>(alloc: Global) -> Arg<'a> {
    Arg::new(alloc, "report")
        .long("report")
        .value_name("SECONDS")
        .action(ArgAction::Set)
        .value_parser(value_parser!(u32))
        .default_value("0")
        .help("How often to report sessions and rooms on standard error; 0 disables reports")
}

/// The option for the folder of the rooms' files.
fn keep<'a>(alloc: Global) -> Arg<'a> {
    Arg::new(alloc, "keep")
        .long("keep")
        .value_name("DIR")
        .action(ArgAction::Set)
        .help(
            "A folder that keeps each room in DIR/ROOM.record; without it rooms are in memory only",
        )
}

/// The option to confine each session to one room.
fn by_path<'a>(alloc: Global) -> Arg<'a> {
    Arg::new(alloc, "by-path")
        .long("by-path")
        .action(ArgAction::SetTrue)
        .help("A session may enter only the room of its request's path: NAME over /NAME")
}

/// The option for the number of clients.
fn clients<'a>(alloc: Global) -> Arg<'a> {
    Arg::new(alloc, "clients")
        .long("clients")
        .value_name("N")
        .action(ArgAction::Set)
        .value_parser(value_parser!(u32).range(1..=100_000))
        .default_value("10000")
        .help("How many sessions to serve at a time, 1 to 100000; others are answered by 503")
}

/// The option for the number of rooms that are opened on demand.
fn on_demand<'a>(alloc: Global) -> Arg<'a> {
    Arg::new(alloc, "rooms")
        .long("rooms")
        .value_name("N")
        .action(ArgAction::Set)
        .value_parser(value_parser!(u32).range(1..=100_000))
        .help("Open any other room at its first join, N rooms at most, 1 to 100000")
}

/// The option for the time after which a room on demand is closed that nobody is in.
fn close_after<'a>(alloc: Global) -> Arg<'a> {
    Arg::new(alloc, "close-after")
        .long("close-after")
        .value_name("SECONDS")
        .action(ArgAction::Set)
        .value_parser(value_parser!(u32).range(1..=86_400))
        .default_value("60")
        .help("How long a kept room of --rooms stays open while nobody is in it, 1 to 86400")
}

/// The option to end with standard input.
fn until_input_ends<'a>(alloc: Global) -> Arg<'a> {
    Arg::new(alloc, "until-input-ends")
        .long("until-input-ends")
        .action(ArgAction::SetTrue)
        .help("End when standard input ends: close each session with 1001, then print the records")
}

/// The option to go on watching.
fn follow<'a>(alloc: Global) -> Arg<'a> {
    Arg::new(alloc, "follow")
        .long("follow")
        .action(ArgAction::SetTrue)
        .help("Go on, and show each object again when it changes")
}

/// The names of rooms, last on the command line.
fn names<'a>(alloc: Global, help: &'a str) -> Arg<'a> {
    Arg::new(alloc, "ROOM")
        .num_args(1..)
        .action(ArgAction::Append)
        .help(help)
}

/// `grace script`.
fn script_command<'a>(alloc: Global) -> Result<Command<'a>, AllocError> {
    Command::new(alloc, "script")
        .about("Answers a script: lines SESSION MESSAGE from standard input")
        .arg(names(alloc, "The name of a room: 1 to 64 of a-z, 0-9 and -").required(true))
}

/// Adds the options for files, times and the number of clients.
fn with_limits<'a>(alloc: Global, command: Command<'a>) -> Result<Command<'a>, AllocError> {
    command
        .arg(keep(alloc))?
        .arg(idle(alloc))?
        .arg(report(alloc))?
        .arg(clients(alloc))
}

/// Adds the options for the rooms, and for the end of the server.
fn with_rooms<'a>(alloc: Global, command: Command<'a>) -> Result<Command<'a>, AllocError> {
    command
        .arg(by_path(alloc))?
        .arg(on_demand(alloc))?
        .arg(close_after(alloc))?
        .arg(until_input_ends(alloc))
}

/// The address to listen on.
fn listen_address<'a>(alloc: Global) -> Arg<'a> {
    word(
        alloc,
        "ADDRESS",
        "The address to listen on: a host and a port, such as 127.0.0.1:8080",
    )
}

/// The number of sessions.
fn sessions<'a>(alloc: Global) -> Arg<'a> {
    word(
        alloc,
        "SESSIONS",
        "How many sessions to serve in all, 1 to 100000; 0 serves without end",
    )
    .value_parser(value_parser!(u32).range(0..=100_000))
}

/// The number of threads.
fn workers<'a>(alloc: Global) -> Arg<'a> {
    word(
        alloc,
        "WORKERS",
        "How many threads serve the sessions, 1 to 64; 0 starts one for each processor",
    )
    .value_parser(value_parser!(u32).range(0..=64))
}

/// The rooms that are open from the start.
fn first_rooms<'a>(alloc: Global) -> Result<Arg<'a>, AllocError> {
    names(
        alloc,
        "A room that is open from the start: 1 to 64 of a-z, 0-9 and -; needed without --rooms",
    )
    .required_unless_present("rooms")
}

/// Adds the arguments before the rooms.
fn with_words<'a>(alloc: Global, command: Command<'a>) -> Result<Command<'a>, AllocError> {
    command
        .arg(listen_address(alloc))?
        .arg(sessions(alloc))?
        .arg(workers(alloc))
}

/// Adds the argument, unless making it failed.
fn with_last<'a>(
    command: Command<'a>,
    last: Result<Arg<'a>, AllocError>,
) -> Result<Command<'a>, AllocError> {
    command.arg(last?)
}

/// `grace serve`.
fn serve_command<'a>(alloc: Global) -> Result<Command<'a>, AllocError> {
    let command = Command::new(alloc, "serve").about(
        "Serves sessions over WebSocket, then prints the rooms' records",
    );
    let command = with_limits(alloc, command)?;
    let command = with_rooms(alloc, command)?;
    let command = with_words(alloc, command)?;
    with_last(command, first_rooms(alloc))
}

/// `grace watch`.
fn watch_command<'a>(alloc: Global) -> Result<Command<'a>, AllocError> {
    Command::new(alloc, "watch")
        .about("Shows the objects of a live room with their versions")
        .arg(follow(alloc))?
        .arg(word(
            alloc,
            "ADDRESS",
            "The address of the server: a host and a port, such as 127.0.0.1:8080",
        ))?
        .arg(word(
            alloc,
            "ROOM",
            "The name of the room: 1 to 64 of a-z, 0-9 and -",
        ))
}

/// `grace check`.
fn check_command<'a>(alloc: Global) -> Result<Command<'a>, AllocError> {
    Command::new(alloc, "check")
        .about("Checks a room's record and a transcript of it")
        .arg(word(
            alloc,
            "RECORD",
            "A file of the record's entries, one a line",
        ))?
        .arg(word(
            alloc,
            "TRANSCRIPT",
            "A file of requests and replies, one a line",
        ))
}

/// `grace migrate`.
fn migrate_command<'a>(alloc: Global) -> Result<Command<'a>, AllocError> {
    Command::new(alloc, "migrate")
        .about("Prints a room's record in today's forms")
        .arg(word(
            alloc,
            "RECORD",
            "A file of the record's entries, one a line",
        ))
}

/// `grace renew`.
fn renew_command<'a>(alloc: Global) -> Result<Command<'a>, AllocError> {
    Command::new(alloc, "renew")
        .about("Prints a short record that draws what a room's record draws")
        .arg(word(
            alloc,
            "RECORD",
            "A file of the record's entries, one a line",
        ))
}

/// `grace renewed`.
fn renewed_command<'a>(alloc: Global) -> Result<Command<'a>, AllocError> {
    Command::new(alloc, "renewed")
        .about("Checks that a new record draws what an old one draws")
        .arg(word(
            alloc,
            "OLD",
            "A file of the old record's entries, one a line",
        ))?
        .arg(word(
            alloc,
            "NEW",
            "A file of the new record's entries, one a line",
        ))
}

/// Adds a subcommand, unless making it failed.
fn with<'a>(
    command: Command<'a>,
    subcommand: Result<Command<'a>, AllocError>,
) -> Result<Command<'a>, AllocError> {
    command.subcommand(subcommand?)
}

/// The program without its subcommands.
fn program<'a>(alloc: Global) -> Command<'a> {
    Command::new(alloc, "grace")
        .about("A group drawing server with object versions")
        .version(VERSION)
        .subcommand_required(true)
}

/// Adds the subcommands that serve rooms.
fn with_servers<'a>(alloc: Global, command: Command<'a>) -> Result<Command<'a>, AllocError> {
    let command = with(command, script_command(alloc))?;
    let command = with(command, serve_command(alloc))?;
    with(command, watch_command(alloc))
}

/// Adds the subcommands over files.
fn with_files<'a>(alloc: Global, command: Command<'a>) -> Result<Command<'a>, AllocError> {
    let command = with(command, check_command(alloc))?;
    let command = with(command, migrate_command(alloc))?;
    let command = with(command, renew_command(alloc))?;
    with(command, renewed_command(alloc))
}

/// The command line of the program: its commands with their arguments and options.
///
/// # Errors
///
/// `AllocError` if an allocation failed.
pub fn grace<'a>(alloc: Global) -> Result<Command<'a>, AllocError> {
    with_files(alloc, with_servers(alloc, program(alloc))?)
}
