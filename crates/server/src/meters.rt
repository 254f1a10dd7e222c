//! What a server counts from its start, for `GET /metrics`.

use crate::sync_meters::SyncMeters;
use crate::tallies::Tallies;
use crate::tally::EntrySums;
use base_types::NoMemory;
use command_line::VERSION;
use keeper::{FileSync, Reason};
use metrics::{Family, Kind, Label, Number, Sample, Suffix, write_families};
use rules::{MAX_REFUSAL_CODE, Refusal};
use sessions::Cause;
use std::alloc::{AllocError, Global};
use std::sync::atomic::{AtomicU64, Ordering};

/// Why sessions end, in the order of their counters.
const CAUSES: [Cause; 6] = [
    Cause::Closed,
    Cause::HandshakeFailed,
    Cause::StreamFault,
    Cause::NoMemory,
    Cause::Torn,
    Cause::NotKept,
];

/// Why rooms are not served, in the order of their counters.
const REASONS: [Reason; 5] = [
    Reason::Full,
    Reason::Elsewhere,
    Reason::File,
    Reason::NoMemory,
    Reason::Late,
];

/// Counters that begin at 0 with the server.
#[derive(Drop)]
pub(crate) struct Meters {
    alloc: Global,
    /// By the code of the refusal.
    refusals: Vec<AtomicU64>,
    /// In the order of `CAUSES`.
    ended: Vec<AtomicU64>,
    turned_away: AtomicU64,
    /// Joins, backs and handshakes whose room was not opened, in the order of `REASONS`.
    not_served: Vec<AtomicU64>,
    syncs: SyncMeters,
}

/// The sessions of a server at one time.
#[derive(Clone, Copy, Debug)]
pub(crate) struct SessionCounts {
    /// The sessions that have begun.
    pub(crate) begun: u64,
    /// The sessions that have ended.
    pub(crate) ended: u64,
    /// The most sessions at a time.
    pub(crate) clients: u32,
}

/// This many counters.
pub(crate) fn counters(alloc: Global, count: usize) -> Result<Vec<AtomicU64>, AllocError> {
    let mut counters = Vec::with_capacity(alloc, count)?;
    for _ in 0..count {
        counters.push(AtomicU64::new(0))?;
    }
    Ok(counters)
}

/// Counts one more.
pub(crate) fn count(counter: &AtomicU64) {
    counter.fetch_add(1, Ordering::SeqCst);
}

impl Meters {
    /// Counters at 0.
    ///
    /// # Errors
    /// `AllocError` if an allocation failed.
    pub(crate) fn new(alloc: Global) -> Result<Meters, AllocError> {
        Ok(Meters {
            alloc,
            refusals: counters(alloc, MAX_REFUSAL_CODE as usize + 1)?,
            ended: counters(alloc, CAUSES.len())?,
            turned_away: AtomicU64::new(0),
            not_served: counters(alloc, REASONS.len())?,
            syncs: SyncMeters::new(alloc)?,
        })
    }

    /// There is a reply that is a refusal.
    pub(crate) fn add_refusal(&self, refusal: Refusal) {
        if let Some(counter) = self.refusals.get(refusal.code() as usize) {
            count(counter);
        }
    }

    /// A session has ended so.
    pub(crate) fn add_end(&self, cause: Cause) {
        let place = CAUSES.iter().position(|known| *known == cause);
        if let Some(place) = place
            && let Some(counter) = self.ended.get(place)
        {
            count(counter);
        }
    }

    /// A client was turned away.
    pub(crate) fn add_turned_away(&self) {
        count(&self.turned_away);
    }

    /// A room was not opened for this reason.
    pub(crate) fn add_not_served(&self, reason: Reason) {
        let place = REASONS.iter().position(|known| *known == reason);
        if let Some(place) = place
            && let Some(counter) = self.not_served.get(place)
        {
            count(counter);
        }
    }

    /// A room's file was written and synced, or that failed.
    pub(crate) fn add_sync(&self, sync: FileSync) {
        self.syncs.add(sync);
    }

    /// The text of all metrics, where the rooms have added so much.
    ///
    /// # Errors
    /// `NoMemory` if an allocation failed.
    pub(crate) fn text(
        &self,
        sessions: SessionCounts,
        rooms: &Tallies,
        added: EntrySums,
    ) -> Result<String, NoMemory> {
        let alloc = self.alloc;
        let mut families = Vec::new(alloc);
        add_sessions(alloc, &mut families, sessions)?;
        families.push(self.ends()?)?;
        let turned_away = load(&self.turned_away);
        families.push(counter(
            alloc,
            "grace_turned_away_total",
            "Clients turned away by 503.",
            turned_away,
        )?)?;
        add_rooms(alloc, &mut families, rooms)?;
        families.push(self.not_served()?)?;
        families.push(entries(alloc, added)?)?;
        families.push(counter(
            alloc,
            "grace_replies_total",
            "Replies.",
            rooms.count_replies(),
        )?)?;
        families.push(self.refusals()?)?;
        self.syncs.add_families(alloc, &mut families)?;
        families.push(build(alloc)?)?;
        write_families(alloc, &families)
    }

    /// The family of ended sessions, by their cause.
    fn ends(&self) -> Result<Family, NoMemory> {
        let mut samples = Vec::with_capacity(self.alloc, CAUSES.len())?;
        for (cause, counter) in CAUSES.iter().zip(&self.ended) {
            let word = format!(in self.alloc; "{cause}")?;
            let labels = vec![in self.alloc; Label::new("cause", word)]?;
            samples.push(Sample::new(Suffix::Plain, labels, Number::Whole(load(counter))))?;
        }
        let help = "Sessions that have ended.";
        Ok(Family::new("grace_sessions_ended_total", help, Kind::Counter, samples))
    }

    /// The family of joins, backs and handshakes whose room was not opened, by the reason.
    fn not_served(&self) -> Result<Family, NoMemory> {
        let mut samples = Vec::with_capacity(self.alloc, REASONS.len())?;
        for (reason, counter) in REASONS.iter().zip(&self.not_served) {
            let word = format!(in self.alloc; "{reason}")?;
            let labels = vec![in self.alloc; Label::new("reason", word)]?;
            samples.push(Sample::new(Suffix::Plain, labels, Number::Whole(load(counter))))?;
        }
        let help = "Joins, backs and handshakes whose room was not opened.";
        Ok(Family::new("grace_rooms_not_served_total", help, Kind::Counter, samples))
    }

    /// The family of refusals, by their code and word.
    fn refusals(&self) -> Result<Family, NoMemory> {
        let mut samples = Vec::with_capacity(self.alloc, self.refusals.len())?;
        for code in 1..=MAX_REFUSAL_CODE {
            if let Some(refusal) = Refusal::from_code(code)
                && let Some(counter) = self.refusals.get(code as usize)
            {
                samples.push(refusal_sample(self.alloc, refusal, load(counter))?)?;
            }
        }
        let help = "Replies that are refusals.";
        Ok(Family::new("grace_refusals_total", help, Kind::Counter, samples))
    }
}

/// The count.
pub(crate) fn load(counter: &AtomicU64) -> u64 {
    counter.load(Ordering::SeqCst)
}

/// A family of one sample without labels.
fn single(
    alloc: Global,
    name: &'static str,
    help: &'static str,
    kind: Kind,
    number: u64,
) -> Result<Family, NoMemory> {
    let sample = Sample::new(Suffix::Plain, Vec::new(alloc), Number::Whole(number));
    Ok(Family::new(name, help, kind, vec![in alloc; sample]?))
}

/// A counter without labels.
pub(crate) fn counter(
    alloc: Global,
    name: &'static str,
    help: &'static str,
    number: u64,
) -> Result<Family, NoMemory> {
    single(alloc, name, help, Kind::Counter, number)
}

/// A gauge without labels.
fn gauge(
    alloc: Global,
    name: &'static str,
    help: &'static str,
    number: u64,
) -> Result<Family, NoMemory> {
    single(alloc, name, help, Kind::Gauge, number)
}

/// Appends the families of the sessions that there are and were.
fn add_sessions(
    alloc: Global,
    families: &mut Vec<Family>,
    sessions: SessionCounts,
) -> Result<(), NoMemory> {
    let SessionCounts {
        begun,
        ended,
        clients,
    } = sessions;
    let now = begun.saturating_sub(ended);
    families.push(gauge(alloc, "grace_sessions", "Sessions now.", now)?)?;
    let most = u64::from(clients);
    families.push(gauge(
        alloc,
        "grace_sessions_max",
        "The most sessions at a time.",
        most,
    )?)?;
    families.push(counter(
        alloc,
        "grace_sessions_total",
        "Sessions that have begun.",
        begun,
    )?)?;
    Ok(())
}

/// Appends the families of the rooms that are open and were opened.
fn add_rooms(alloc: Global, families: &mut Vec<Family>, rooms: &Tallies) -> Result<(), NoMemory> {
    let open = rooms.count_open();
    families.push(gauge(alloc, "grace_rooms_open", "Open rooms.", open)?)?;
    families.push(gauge(
        alloc,
        "grace_rooms_max",
        "The most open rooms at a time.",
        rooms.most_open(),
    )?)?;
    families.push(counter(
        alloc,
        "grace_rooms_opened_total",
        "Rooms opened on demand.",
        rooms.count_opened(),
    )?)?;
    families.push(counter(
        alloc,
        "grace_rooms_closed_total",
        "Rooms closed, since nobody was in them.",
        rooms.count_closed(),
    )?)?;
    Ok(())
}

/// A sample with one label.
pub(crate) fn labelled(
    alloc: Global,
    name: &'static str,
    value: &str,
    number: u64,
) -> Result<Sample, NoMemory> {
    let label = Label::new(name, String::from_str(alloc, value)?);
    Ok(Sample::new(Suffix::Plain, vec![in alloc; label]?, Number::Whole(number)))
}

/// The family of the entries that rooms have added, by their kind.
fn entries(alloc: Global, sums: EntrySums) -> Result<Family, NoMemory> {
    let mut samples = Vec::with_capacity(alloc, 3)?;
    samples.push(labelled(alloc, "kind", "join", sums.joins)?)?;
    samples.push(labelled(alloc, "kind", "creation", sums.creations)?)?;
    samples.push(labelled(alloc, "kind", "change", sums.changes)?)?;
    let help = "Entries that rooms have added.";
    Ok(Family::new("grace_entries_total", help, Kind::Counter, samples))
}

/// The sample of one refusal.
fn refusal_sample(alloc: Global, refusal: Refusal, number: u64) -> Result<Sample, NoMemory> {
    let code = format!(in alloc; "{}", refusal.code())?;
    let mut labels = Vec::with_capacity(alloc, 2)?;
    labels.push(Label::new("code", code))?;
    labels.push(Label::new("word", String::from_str(alloc, refusal.word())?))?;
    Ok(Sample::new(Suffix::Plain, labels, Number::Whole(number)))
}

/// The family that tells the version.
fn build(alloc: Global) -> Result<Family, NoMemory> {
    let sample = labelled(alloc, "version", VERSION, 1)?;
    let help = "The version of the program.";
    Ok(Family::new(
        "grace_build_info",
        help,
        Kind::Gauge,
        vec![in alloc; sample]?,
    ))
}
