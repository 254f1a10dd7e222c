//! Counts of what one room has.

ghost use Rattle.std.specs.Prelude.{◌≡◌, ◌-◌};

use crossbeam_utils::CachePadded;
use keeper::Beginning;
use log::{Log, info, warn};
use room_core::RoomState;
use rules::Limits;
use std::sync::atomic::{AtomicU64, Ordering};
use succession::nine_tenths;
use wire::EntryKind;

/// A room's numbers of joins, entries and objects, and that of the replies on it and on those that
/// were at its place before.
#[derive(Drop)]
pub(crate) struct Tally {
    joins: AtomicU64,
    entries: AtomicU64,
    objects: AtomicU64,
    replies: AtomicU64,
    /// Another room goes on with what the room has.
    has_ended: bool,
}

/// Adds 1, and returns the new count.
fn count(counter: &AtomicU64) -> u64 {
    counter.fetch_add(1, Ordering::SeqCst).saturating_add(1)
}

impl Tally {
    /// The tally of a room that begins empty.
    pub(crate) fn empty() -> Tally {
        Tally {
            joins: AtomicU64::new(0),
            entries: AtomicU64::new(0),
            objects: AtomicU64::new(0),
            replies: AtomicU64::new(0),
            has_ended: false,
        }
    }

    /// The tally of a room that begins with this record.
    pub(crate) fn of_room(room: &RoomState) -> Tally {
        Tally {
            joins: AtomicU64::new(u64::from(room.sites())),
            entries: AtomicU64::new(room.entries().len() as u64),
            objects: AtomicU64::new(u64::from(room.count_objects())),
            replies: AtomicU64::new(0),
            has_ended: room.has_ended(),
        }
    }

    /// The room at this place begins anew, with this record. Returns what the room before it had.
    pub(crate) fn begin_anew(&self, beginning: &Beginning) -> EntrySums {
        let sites = u64::from(beginning.sites);
        let joins = self.joins.swap(sites, Ordering::SeqCst);
        let entries = self
            .entries
            .swap(beginning.entries as u64, Ordering::SeqCst);
        let objects = self
            .objects
            .swap(u64::from(beginning.objects), Ordering::SeqCst);
        EntrySums::of_counts(joins, entries, objects)
    }

    /// Counts an entry of this kind of the room of this name. Warns when the joins, the objects or
    /// the entries reach nine tenths of their limit.
    pub(crate) fn add<R: Log>(&self, rt: &R, name: &str, kind: EntryKind) {
        let entries = count(&self.entries);
        if entries == nine_tenths(Limits::MAX_ENTRIES) {
            warn_of_entries(rt, name, entries);
        }
        match kind {
            EntryKind::Join => {
                let joins = count(&self.joins);
                if joins == nine_tenths(Limits::MAX_JOINS) {
                    warn_of_joins(rt, name, joins);
                }
            }
            EntryKind::Creation => {
                let objects = count(&self.objects);
                if objects == nine_tenths(Limits::MAX_OBJECTS) {
                    warn_of_objects(rt, name, objects);
                }
            }
            EntryKind::Change => {}
        }
    }

    /// Counts a reply on the room.
    pub(crate) fn add_reply(&self) {
        count(&self.replies);
    }

    /// The number of replies.
    pub(crate) fn replies(&self) -> u64 {
        load(&self.replies)
    }

    /// Warns if the room of this name begins with nine tenths of its joins, its objects or its
    /// entries, or more, and nothing goes on with them.
    pub(crate) fn begin<R: Log>(&self, rt: &R, name: &str) {
        if self.has_ended {
            return;
        }
        let (joins, entries) = (load(&self.joins), load(&self.entries));
        if entries >= nine_tenths(Limits::MAX_ENTRIES) {
            warn_of_entries(rt, name, entries);
        }
        if joins >= nine_tenths(Limits::MAX_JOINS) {
            warn_of_joins(rt, name, joins);
        }
        let objects = load(&self.objects);
        if objects >= nine_tenths(Limits::MAX_OBJECTS) {
            warn_of_objects(rt, name, objects);
        }
    }

    /// What the room has.
    pub(crate) fn sums(&self) -> EntrySums {
        EntrySums::of_counts(load(&self.joins), load(&self.entries), load(&self.objects))
    }

    /// Reports what the room of this name has.
    pub(crate) fn report<R: Log>(&self, rt: &R, name: &str) {
        let (joins, entries, objects) = (
            load(&self.joins),
            load(&self.entries),
            load(&self.objects),
        );
        let (most_joins, most_entries) = (Limits::MAX_JOINS, Limits::MAX_ENTRIES);
        let most_objects = Limits::MAX_OBJECTS;
        info!(rt; "report: room {name} joins {joins}/{most_joins} entries {entries}/{most_entries} objects {objects}/{most_objects}");
    }
}

fn warn_of_entries<R: Log>(rt: &R, name: &str, entries: u64) {
    let limit = Limits::MAX_ENTRIES;
    warn!(rt; "room {name} has {entries} of {limit} entries");
}

fn warn_of_joins<R: Log>(rt: &R, name: &str, joins: u64) {
    let limit = Limits::MAX_JOINS;
    warn!(rt; "room {name} has {joins} of {limit} joins");
}

fn warn_of_objects<R: Log>(rt: &R, name: &str, objects: u64) {
    let limit = Limits::MAX_OBJECTS;
    warn!(rt; "room {name} has {objects} of {limit} objects");
}

/// How many entries of each kind rooms have together.
#[derive(Clone, Copy, Debug, PartialEq, Eq)]
pub(crate) struct EntrySums {
    pub(crate) joins: u64,
    pub(crate) creations: u64,
    pub(crate) changes: u64,
}

impl EntrySums {
    /// No entries.
    pub(crate) const NONE: EntrySums = EntrySums {
        joins: 0,
        creations: 0,
        changes: 0,
    };

    /// What a room has of which these are the numbers of joins, entries and objects.
    pub(crate) fn of_counts(joins: u64, entries: u64, objects: u64) -> EntrySums
        ensures joins { result.joins ≡ joins }
        ensures creations { result.creations ≡ objects }
        ensures changes { result.changes ≡ entries - joins - objects }
    {
        EntrySums {
            joins,
            creations: objects,
            changes: entries.saturating_sub(joins).saturating_sub(objects),
        }
    }

    /// What a room has that begins so.
    pub(crate) fn of_beginning(beginning: &Beginning) -> EntrySums {
        EntrySums::of_counts(
            u64::from(beginning.sites),
            beginning.entries as u64,
            u64::from(beginning.objects),
        )
    }

    /// What these rooms have. Linear in their number.
    pub(crate) fn of(rooms: &[CachePadded<Tally>]) -> EntrySums {
        let mut sums = EntrySums::NONE;
        for room in rooms {
            sums = sums.and(room.sums());
        }
        sums
    }

    /// Both together.
    pub(crate) fn and(self, more: EntrySums) -> EntrySums {
        EntrySums {
            joins: self.joins.saturating_add(more.joins),
            creations: self.creations.saturating_add(more.creations),
            changes: self.changes.saturating_add(more.changes),
        }
    }

    /// What is more than `before`.
    pub(crate) fn since(self, before: EntrySums) -> EntrySums
        ensures joins { result.joins ≡ self.joins - before.joins }
        ensures creations { result.creations ≡ self.creations - before.creations }
        ensures changes { result.changes ≡ self.changes - before.changes }
    {
        EntrySums {
            joins: self.joins.saturating_sub(before.joins),
            creations: self.creations.saturating_sub(before.creations),
            changes: self.changes.saturating_sub(before.changes),
        }
    }
}

/// The count.
fn load(counter: &AtomicU64) -> u64 {
    counter.load(Ordering::SeqCst)
}
