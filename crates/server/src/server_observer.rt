//! What an operator is told while a server runs.

ghost use Rattle.std.specs.Prelude.{◌≡◌, ◌↔◌, IsNone};

use crate::meters::{Meters, SessionCounts};
use crate::tallies::Tallies;
use crate::turnstile::Turnstile;
use base_types::RoomName;
use crossbeam_channel::Receiver;
use keeper::{Change, FileSync, Reason};
use log::{Log, error, info, warn};
use loops::Client;
use sessions::{Cause, Observer};
use std::sync::Wait;
use std::sync::atomic::{AtomicBool, AtomicU64, Ordering};
use std::time::{Clock, Duration};
use wire::{EntryKind, Refusal};

/// The limits on sessions.
#[derive(Clone, Copy, Debug)]
pub(crate) struct SessionLimits {
    /// The most sessions in all; 0 for no limit.
    pub(crate) sessions: u32,
    /// The most sessions at a time.
    pub(crate) clients: u32,
}

/// Counts sessions and what the rooms have, and warns before something is used up. Admits
/// connections as long as there may be sessions.
#[derive(Drop)]
pub(crate) struct ServerObserver<'a, R> {
    rt: &'a R,
    rooms: &'a Tallies,
    meters: Meters,
    /// The folder that keeps the rooms; `None` if nothing does.
    dir: Option<&'a str>,
    limits: SessionLimits,
    /// `None` if nothing limits the sessions.
    turnstile: Option<Turnstile>,
    /// The server goes away.
    is_away: AtomicBool,
    /// Whether a warning was logged since a session last ended.
    is_told: AtomicBool,
    /// Whether a warning was logged that all rooms are open.
    is_told_of_rooms: AtomicBool,
    begun: AtomicU64,
    ended: AtomicU64,
}

impl<'a, R> ServerObserver<'a, R> {
    /// An observer of these rooms, in order, which this folder keeps if one does.
    pub(crate) fn new(
        rt: &'a R,
        rooms: &'a Tallies,
        meters: Meters,
        dir: Option<&'a str>,
        limits: SessionLimits,
    ) -> ServerObserver<'a, R> {
        ServerObserver {
            rt,
            rooms,
            meters,
            dir,
            limits,
            turnstile: turnstile_of(limits.sessions),
            is_away: AtomicBool::new(false),
            is_told: AtomicBool::new(false),
            is_told_of_rooms: AtomicBool::new(false),
            begun: AtomicU64::new(0),
            ended: AtomicU64::new(0),
        }
    }
}

impl<'a, R> ServerObserver<'a, R> {
    /// The runtime.
    pub(crate) fn runtime(&self) -> &'a R {
        self.rt
    }
}

/// Admits this many sessions, or any number for 0.
fn turnstile_of(sessions: u32) -> Option<Turnstile>
    ensures { IsNone result ↔ (sessions ≡ 0) }
{
    if sessions == 0 {
        None
    } else {
        Some(Turnstile::new(sessions))
    }
}

impl<R: Wait + Log> ServerObserver<'_, R> {
    /// Admits a connection, or returns false if there may be no more sessions. May wait until that
    /// is known.
    pub(crate) fn let_in(&self) -> bool {
        if self.is_away() {
            return false;
        }
        match &self.turnstile {
            Some(turnstile) => turnstile.let_in(self.rt),
            None => true,
        }
    }

    /// The server goes away: no connection is admitted any more.
    pub(crate) fn go_away(&self) {
        self.is_away.store(true, Ordering::SeqCst);
        if let Some(turnstile) = &self.turnstile {
            turnstile.go_away(self.rt);
        }
    }

    /// Returns whether the server goes away.
    pub(crate) fn is_away(&self) -> bool {
        self.is_away.load(Ordering::SeqCst)
    }

    /// Warns of rooms that begin nearly full.
    pub(crate) fn begin(&self) {
        self.rooms.begin(self.rt);
    }

    /// Reports on the sessions and on each room.
    fn report(&self) {
        let begun = self.begun.load(Ordering::SeqCst);
        let now = begun.saturating_sub(self.ended.load(Ordering::SeqCst));
        let SessionLimits { sessions, clients } = self.limits;
        if sessions == 0 {
            info!(self.rt; "report: server clients {now}/{clients} begun {begun}");
        } else {
            info!(self.rt; "report: server clients {now}/{clients} begun {begun}/{sessions}");
        }
        self.rooms.report(self.rt);
    }

    /// Reports once each period, until the channel has no sender.
    pub(crate) fn report_every(&self, period: Duration, stop: &Receiver<()>)
    where
        R: Clock,
    {
        for _ in self.rt.forever() {
            match stop.recv_timeout(self.rt, period) {
                Err(fault) if fault.is_timeout() => self.report(),
                _ => break,
            }
        }
    }
}

impl<R: Wait + Log> Observer for ServerObserver<'_, R> {
    fn after_reply(&self, place: Option<usize>, refusal: Option<Refusal>) {
        self.rooms.add_reply(place);
        if let Some(refusal) = refusal {
            self.meters.add_refusal(refusal);
        }
    }

    fn after_entry(&self, room: &RoomName, place: usize, kind: EntryKind) {
        self.rooms.add(self.rt, room.text(), place, kind);
    }

    fn after_opening(&self, _place: usize) {
        self.rooms.add_opening();
    }

    /// Warns once that all rooms are open.
    fn not_served(&self, reason: Reason) {
        self.meters.add_not_served(reason);
        if reason == Reason::Full && !self.is_told_of_rooms.swap(true, Ordering::SeqCst) {
            let most = self.rooms.most_open();
            warn!(self.rt; "all {most} rooms are open");
        }
    }

    /// Logs once why a room is not kept, and once that it is kept again. Counts the rooms that are
    /// opened and closed.
    fn after_change(&self, change: &Change) {
        let dir = self.dir.unwrap_or("");
        match change {
            Change::Fails { room, why } => {
                error!(self.rt; "{dir}/{room}.record is not kept: {why}");
            }
            Change::KeptAgain { room } => info!(self.rt; "{dir}/{room}.record is kept again"),
            Change::Opened(beginning) => self.rooms.begin_room(self.rt, beginning),
            Change::Closed { place: _ } => self.rooms.add_closing(),
        }
    }

    fn after_sync(&self, sync: FileSync) {
        self.meters.add_sync(sync);
    }

    fn before_session(&self) {
        self.begun.fetch_add(1, Ordering::SeqCst);
        if let Some(turnstile) = &self.turnstile {
            turnstile.is_session(self.rt);
        }
    }

    fn after_probe(&self) {
        if let Some(turnstile) = &self.turnstile {
            turnstile.is_no_session(self.rt);
        }
    }

    /// Warns that all places are taken, once until a session ends.
    fn turned_away(&self) {
        self.meters.add_turned_away();
        if let Some(turnstile) = &self.turnstile {
            turnstile.is_no_session(self.rt);
        }
        if !self.is_told.swap(true, Ordering::SeqCst) {
            let clients = self.limits.clients;
            warn!(self.rt; "all {clients} clients are in");
        }
    }

    fn not_let_in(&self) {
        if let Some(turnstile) = &self.turnstile {
            turnstile.is_no_session(self.rt);
        }
    }

    fn after_session(&self, _client: &Client, _room: Option<&RoomName>, cause: Cause) {
        self.ended.fetch_add(1, Ordering::SeqCst);
        self.meters.add_end(cause);
        self.is_told.store(false, Ordering::SeqCst);
    }

    fn metrics(&self) -> Option<String> {
        let sessions = SessionCounts {
            begun: self.begun.load(Ordering::SeqCst),
            ended: self.ended.load(Ordering::SeqCst),
            clients: self.limits.clients,
        };
        let added = self.rooms.added(self.rt);
        self.meters.text(sessions, self.rooms, added).ok()
    }
}
