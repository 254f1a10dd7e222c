//! `grace serve`: serves sessions over WebSocket.

ghost use Rattle.std.specs.Prelude.{◌≡◌, map};
ghost use Rattle.std.specs.Thread.{IsSend};
ghost use Rattle.room_lock.specs.steps.Planned.{IsPlanOf};
ghost use Rattle.server.specs.steps.Faults.{of_serving};

use crate::accept::Accepted;
use crate::departure::{Departure, Parts};
use crate::early_end::EarlyEnd;
use crate::folder_files::FolderFiles;
use crate::meters::Meters;
use crate::platform::Platform;
use crate::server_observer::{ServerObserver, SessionLimits};
use crate::tallies::Tallies;
use base_types::{RoomName, repeated_name};
use command_fault::Fault;
use commands::{fault_of_rooms, room_names};
use crossbeam_channel::{Receiver, Sender};
use journal::Synced;
use keeper::{Forgets, Keeper};
use keeping::{Keeping, OnDemand, RoomFile};
use log::warn;
use loops::{Bell, MAX_LOOPS, Settings};
use mio::{Poll, Waker};
use restore::RestoredFile;
use room_folder::{Folder, OpenRooms};
use room_lock::{NewRooms, Offered, RoomHistories, Rooms};
use rules::Limits;
use sessions::{ServeFault, Served, serve_streams};
use std::alloc::{AllocError, Global};
use std::fs::File;
use std::io::Write;
use std::marker::Brand;
use std::net::{Net, OpenListener, TcpListener};
use std::sync::atomic::{AtomicBool, Ordering};
use std::thread;
use std::time::Duration;

/// The places for the next rooms of each chain, where no other rooms are opened on demand.
const PLACES_A_CHAIN: usize = 4;

/// The most places for next rooms, as many as `--rooms` can ask for.
const MAX_PLACES: usize = 100_000;

/// The program's fault for a fault of serving.
fn fault_of(fault: ServeFault) -> Fault
    ensures { result ≡ of_serving fault }
{
    match fault {
        ServeFault::NoWorker => Fault::NoWorker,
        ServeFault::Torn => Fault::RoomsTorn,
        ServeFault::Write => Fault::Output,
        ServeFault::NoMemory => Fault::NoMemory,
    }
}

/// The options of `grace serve`, and what it runs on.
#[derive(Drop)]
pub(crate) struct Service<'a, 'w, R, W> {
    pub(crate) rt: &'a R,
    pub(crate) alloc: Global,
    /// The address to listen on, in the form of std's `bind`: a host and a port. Port 0 asks for
    /// any free port.
    pub(crate) address: &'w str,
    /// The number of sessions to serve, 1 to 100,000; 0 for no limit.
    pub(crate) sessions: u32,
    /// The number of threads that serve, 1 to 64; 0 for one for each processor.
    pub(crate) workers: u32,
    /// The number of sessions to serve at a time, 1 to 100,000.
    pub(crate) clients: u32,
    /// How long a client may be silent; `None` for no limit.
    pub(crate) idle: Option<Duration>,
    /// The period of reports; `None` for no reports.
    pub(crate) report: Option<Duration>,
    /// The folder that keeps the rooms; `None` if nothing does.
    pub(crate) dir: Option<&'w str>,
    /// A session may enter only the room of its request's path.
    pub(crate) is_confining: bool,
    /// The number of rooms that may be opened on demand, 1 to 100,000; 0 for none but the next
    /// rooms of chains that are kept.
    pub(crate) on_demand: u32,
    /// After how many seconds a room is closed that nobody is in and that is kept, from 1.
    pub(crate) close_after: u32,
    /// The server goes away when standard input ends.
    pub(crate) ends_with_input: bool,
    /// Where it reports that it listens, and writes the records.
    pub(crate) output: &'a mut W,
}

/// Writes a line to the output at once.
fn write_line<W: Write>(output: &mut W, line: &str) -> Result<(), Fault> {
    if output.write_all(line.as_bytes()).is_err() || output.flush().is_err() {
        return Err(Fault::Output);
    }
    Ok(())
}

/// The line that reports the address: the host as it was given, and the port that the system chose.
fn listening_line<L: OpenListener>(
    alloc: Global,
    address: &str,
    listener: &L,
) -> Result<String, AllocError> {
    match (address.rsplit_once(':'), listener.local_addr()) {
        (Some((host, _)), Ok(local)) => format!(in alloc; "listening {host}:{}\n", local.port()),
        _ => format!(in alloc; "listening {address}\n"),
    }
}

impl<R: Platform, W: Write> Service<'_, '_, R, W> {
    /// Listens, reports so on the output, and serves what it accepts in these rooms.
    fn serve_rooms<P, K>(self, rooms: Rooms<P>, tallies: &Tallies, keeper: &K) -> Result<(), Fault>
    where
        P: RoomHistories + Send + Sync,
        K: Keeper<P> + Sync,
        K::Receipt: Send,
        K::Permit: Send,
    {
        let listener = self.listen()?;
        if self.dir.is_none() {
            warn!(self.rt; "rooms are in memory only; --keep DIR keeps them");
        }
        let limits = SessionLimits {
            sessions: self.sessions,
            clients: self.clients,
        };
        let meters = Meters::new(self.alloc)?;
        let observer = ServerObserver::new(self.rt, tallies, meters, self.dir, limits);
        observer.begin();
        let line = listening_line(self.alloc, self.address, &listener)?;
        write_line(self.output, &line)?;
        let options = Options {
            alloc: self.alloc,
            loops: self.count_loops(),
            settings: self.settings(),
            is_confining: self.is_confining,
            ends_with_input: self.ends_with_input,
            report: self.report,
        };
        let failed = AtomicBool::new(false);
        let streams = Accepted::new(&listener, &observer, &failed);
        serve_listening(options, rooms, streams, keeper, self.output)
    }

    /// Listens on the address.
    fn listen(&self) -> Result<TcpListener, Fault> {
        match TcpListener::bind(self.rt, self.address) {
            Ok(listener) => Ok(listener),
            Err(why) => Err(Fault::CannotListen(why)),
        }
    }

    /// The number of threads that serve: as many as the processors if none is given, from 1 to
    /// `MAX_LOOPS`.
    fn count_loops(&self) -> usize {
        if self.workers > 0 {
            return (self.workers as usize).min(MAX_LOOPS);
        }
        match thread::available_parallelism(self.rt) {
            Ok(count) => count.get().min(MAX_LOOPS),
            Err(_) => 1,
        }
    }

    /// The limits of the loops.
    fn settings(&self) -> Settings {
        Settings {
            clients: self.clients as usize,
            idle: self.idle,
        }
    }
}

/// How connections are served.
#[derive(Clone, Copy)]
struct Options {
    alloc: Global,
    /// The number of loops.
    loops: usize,
    settings: Settings,
    /// A session may enter only the room of its request's path.
    is_confining: bool,
    /// The server goes away when standard input ends.
    ends_with_input: bool,
    /// The period of reports; `None` for no reports.
    report: Option<Duration>,
}

/// The bell of the loops for so many places, and the polls of the loops.
fn open_loops(
    rt: &impl Net,
    options: Options,
    places: usize,
) -> Result<(Bell, Vec<Poll>), ServeFault> {
    Ok(Bell::new(rt, options.alloc, options.loops, places)?)
}

/// Serves these connections.
fn serve_listening<P, R, K, W>(
    options: Options,
    rooms: Rooms<P>,
    streams: Accepted<'_, '_, R>,
    keeper: &K,
    output: &mut W,
) -> Result<(), Fault>
where
    P: RoomHistories + Send + Sync,
    R: Platform,
    K: Keeper<P> + Sync,
    K::Receipt: Send,
    K::Permit: Send,
    W: Write,
{
    let (observer, failed) = (streams.observer, streams.failed);
    let (rt, alloc) = (observer.runtime(), options.alloc);
    let places = rooms
        .count_places()
        .saturating_add(keeper.count_waiting_places());
    let (bell, polls) = match open_loops(rt, options, places) {
        Ok(opened) => opened,
        Err(fault) => return Err(fault_of(fault)),
    };
    let served = Served {
        rt,
        alloc,
        bell: &bell,
        polls,
        settings: options.settings,
        observer,
        keeper,
        is_confining: options.is_confining,
    };
    serve_attended(served, rooms, streams, options, output)?;
    if failed.load(Ordering::SeqCst) {
        return Err(Fault::Accept);
    }
    Ok(())
}

/// What has the server go away when standard input ends, if it is to.
fn departure_of<'a, R: Platform, K>(
    served: &Served<'a, R, ServerObserver<'a, R>, K>,
    listener: &TcpListener,
    options: Options,
) -> Result<Option<Parts<'a, R>>, Fault> {
    if !options.ends_with_input {
        return Ok(None);
    }
    match Parts::new(options.alloc, served.observer, served.bell, listener) {
        Ok(parts) => Ok(Some(parts)),
        Err(_) => Err(Fault::NoWorker),
    }
}

/// What runs beside the loops, and what ends it.
#[derive(Drop)]
struct Attendants<'a, R> {
    /// The period of reports; `None` for no reports.
    period: Option<Duration>,
    running: Sender<()>,
    stop: Receiver<()>,
    /// Has the server go away when standard input ends, if it is to.
    departure: Option<Departure<'a, R>>,
    /// Ends that wait.
    over: Option<Waker>,
}

/// Serves these connections to their end. Reports once each period if there is one, and waits for
/// the end of standard input if the server is to go away then.
fn serve_attended<P, R, K, W>(
    served: Served<'_, R, ServerObserver<'_, R>, K>,
    rooms: Rooms<P>,
    mut streams: Accepted<'_, '_, R>,
    options: Options,
    output: &mut W,
) -> Result<(), Fault>
where
    P: RoomHistories + Send + Sync,
    R: Platform,
    K: Keeper<P> + Sync,
    K::Receipt: Send,
    K::Permit: Send,
    W: Write,
{
    let (running, stop) = crossbeam_channel::bounded::<(), _>(served.alloc, 1)?;
    let (departure, over) = match departure_of(&served, streams.listener, options)? {
        Some(parts) => {
            streams.door = Some(parts.door);
            (Some(parts.departure), parts.over)
        }
        None => (None, None),
    };
    let attendants = Attendants {
        period: options.report,
        running,
        stop,
        departure,
        over,
    };
    match serve_in_threads(served, rooms, streams, attendants, output) {
        Ok(()) => Ok(()),
        Err(fault) => Err(fault_of(fault)),
    }
}

/// Serves these connections to their end, beside the threads of the attendants.
fn serve_in_threads<'a, P, R, K, W>(
    served: Served<'a, R, ServerObserver<'a, R>, K>,
    rooms: Rooms<P>,
    streams: Accepted<'_, '_, R>,
    attendants: Attendants<'a, R>,
    output: &mut W,
) -> Result<(), ServeFault>
where
    P: RoomHistories + Send + Sync,
    R: Platform,
    K: Keeper<P> + Sync,
    K::Receipt: Send,
    K::Permit: Send,
    W: Write,
{
    let (rt, observer) = (served.rt, served.observer);
    let Attendants {
        period,
        running,
        stop,
        departure,
        over,
    } = attendants;
    thread::scope(
        thread::scope_env(),
        rt,
        |scope| -> Result<(), ServeFault>
            requires { IsSend P.row × IsSend K.Receipt.row × IsSend K.Permit.row }
        {
            let reporter = period.and_then(|period| {
                let report = move || observer.report_every(period, &stop);
                scope.spawn(report).ok()
            });
            let departing = match departure.map(|departure| scope.spawn(move || departure.run())) {
                Some(Ok(thread)) => Some(thread),
                Some(Err(_)) => return Err(ServeFault::NoWorker),
                None => None,
            };
            let served = serve_streams(served, rooms, streams, output);
            drop(running);
            if let Some(over) = &over {
                let _ = over.wake();
            }
            if let Some(departing) = departing {
                let _door = departing.join(rt);
            }
            if let Some(reporter) = reporter {
                reporter.join(rt);
            }
            served
        },
    )
}

/// Serves in rooms that are kept nowhere.
fn serve_in_memory<P, R, W>(
    service: Service<'_, '_, R, W>,
    planned: NewRooms,
    tallies: &Tallies,
) -> Result<(), Fault>
where
    P: RoomHistories + Send + Sync,
    R: Platform,
    W: Write,
    requires { IsPlanOf planned P.limits P.register }
{
    let (rooms, _begun) = Rooms::<P>::new(service.rt, service.alloc, planned)?;
    service.serve_rooms(rooms, tallies, &Forgets)
}

/// Serves in rooms that are kept in these files, one for each room in order, and in rooms on demand
/// that are kept in this folder. Each room begins with the record of its file.
fn serve_in_files<'a, P, R, W>(
    service: Service<'_, 'a, R, W>,
    planned: NewRooms,
    tallies: &Tallies,
    files: Vec<RestoredFile<Synced<File>>>,
    folder: &Folder<'_>,
) -> Result<(), EarlyEnd<'a>>
where
    P: RoomHistories + Send + Sync,
    R: Platform,
    W: Write,
    requires histories { IsPlanOf planned P.limits P.register }
    requires names { map (λ file. file.name) files.items ≡ planned.names }
    requires records { map (λ file. file.entries) files.items ≡ planned.records }
{
    let (rt, alloc) = (service.rt, service.alloc);
    let (rooms, begun) = Rooms::<P>::new(rt, alloc, planned)?;
    let files = RoomFile::open_all(alloc, &begun, files)?;
    let on_demand = OnDemand {
        files: FolderFiles { rt, folder },
        close_after: service.close_after,
    };
    let keeping = Keeping::new(rt, alloc, &rooms, files, on_demand)?;
    service.serve_rooms(rooms, tallies, &keeping)?;
    if keeping.all_kept(rt) {
        Ok(())
    } else {
        Err(EarlyEnd::NotKept)
    }
}

impl<'w, R: Platform, W: Write> Service<'_, 'w, R, W> {
    /// Serves in rooms of these names, and in rooms on demand, with full limits.
    fn serve(self, names: &[&'w str]) -> Result<(), Fault> {
        let rooms = room_names(self.alloc, names)?;
        let tallies = Tallies::empty(self.alloc, &rooms, self.on_demand)?;
        match NewRooms::plan(self.alloc, rooms, Limits::full()) {
            Ok(planned) => {
                let planned = planned.and_on_demand(self.on_demand, Offered::Every);
                serve_in_memory::<Brand, R, W>(self, planned, &tallies)
            }
            Err(fault) => Err(fault_of_rooms(fault)),
        }
    }

    /// Serves with full limits, in rooms that this folder keeps: the newest rooms of the chains of
    /// these names, the rooms before them, and rooms on demand.
    fn serve_kept(self, dir: &'w str, names: &[&'w str]) -> Result<(), EarlyEnd<'w>> {
        let alloc = self.alloc;
        let named = room_names(alloc, names)?;
        if repeated_name(&named).is_some() {
            return Err(EarlyEnd::Fault(Fault::RoomNamedTwice));
        }
        let folder = self.open_folder(dir)?;
        let OpenRooms {
            names: rooms,
            states,
            files,
        } = folder.open_rooms(self.rt, alloc, &named)?;
        let (others, offered) = self.offer(named);
        let tallies = Tallies::of_rooms(alloc, &rooms, &states, others)?;
        match NewRooms::with_records(rooms, Limits::full(), states) {
            Ok(planned) => {
                let planned = planned.and_on_demand(others, offered);
                serve_in_files::<Brand, R, W>(self, planned, &tallies, files, &folder)
            }
            Err(fault) => Err(EarlyEnd::Fault(fault_of_rooms(fault))),
        }
    }

    /// How many rooms of the folder may be open beside those of the start, and which: any, or only
    /// the next rooms of these first rooms.
    fn offer(&self, firsts: Vec<RoomName>) -> (u32, Offered) {
        if self.on_demand > 0 {
            return (self.on_demand, Offered::Every);
        }
        let places = firsts.len().saturating_mul(PLACES_A_CHAIN);
        (places.min(MAX_PLACES) as u32, Offered::Chains(firsts))
    }

    /// Opens the folder, together with other processes if rooms are opened on demand.
    fn open_folder(&self, dir: &'w str) -> Result<Folder<'w>, EarlyEnd<'w>> {
        if self.on_demand > 0 {
            Ok(Folder::open_shared(self.rt, self.alloc, dir)?)
        } else {
            Ok(Folder::open(self.rt, self.alloc, dir)?)
        }
    }

    /// Serves in rooms of these names, and in rooms on demand, with full limits. Returns the exit
    /// status:
    ///
    /// - 0 if all sessions were served and the records written;
    /// - 2 for a bad room name, or, if all are good, for a room named twice;
    /// - 3 if listening, accepting or the output failed, no worker started, or the rooms are torn;
    /// - 4 if an allocation failed.
    ///
    /// Before all but 0 it writes a line to `errors`.
    pub(crate) fn run<E: Write>(self, names: &[&'w str], errors: &mut E) -> u8 {
        match self.serve(names) {
            Ok(()) => 0,
            Err(fault) => {
                fault.write_line(errors);
                fault.status()
            }
        }
    }

    /// Like `run`, in rooms that this folder keeps. Each begins with the record in its file. The
    /// status is also 3 if the folder cannot keep them or another process holds it. It is 3 if a
    /// file is no record, or accepted no more.
    pub(crate) fn run_kept<E: Write>(self, dir: &'w str, names: &[&'w str], errors: &mut E) -> u8 {
        match self.serve_kept(dir, names) {
            Ok(()) => 0,
            Err(end) => {
                end.write_line(errors);
                end.status()
            }
        }
    }
}
