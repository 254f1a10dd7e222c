//! Replies to a session.

ghost use Rattle.std.specs.Prelude.{◌≡◌};
ghost use Rattle.wire.specs.steps.Equality.{same_entrance, same_change, same_listing, same_page};

use crate::lists::{EntryList, IdList, NoteList, ObjectList, VersionList};
use base_types::{Kind, OpName, RoomName};
use rules::Refusal;

/// The reply to a request. `at` is the number of entries in the record before the call, and 0 if no
/// room was asked.
#[derive(Drop)]
pub enum Reply {
    /// The session entered the room as this new site.
    Joined {
        at: u32,
        site: u32,
    },
    /// The session entered the room again as this site, which has made `seq` operations.
    Returned {
        at: u32,
        site: u32,
        seq: u32,
    },
    /// The object of this name was created.
    Made {
        at: u32,
        name: OpName,
    },
    /// The change was added. The object's versions now have these identifiers, in increasing order.
    Taken {
        at: u32,
        ids: IdList,
    },
    /// The versions of an object, by increasing identifier.
    Versions {
        at: u32,
        object: OpName,
        kind: Kind,
        versions: VersionList,
    },
    /// A page of the room's objects, of which there are `total`.
    Objects {
        at: u32,
        from: u32,
        total: u32,
        objects: ObjectList,
    },
    /// A page of the room's record.
    Entries {
        at: u32,
        from: u32,
        entries: EntryList,
    },
    /// The session left the room.
    Left {
        at: u32,
    },
    /// All notes of the room, in order of site.
    Notes {
        at: u32,
        notes: NoteList,
    },
    /// The room that the request named has ended. Its chain goes on in this room, the newest.
    Renewed {
        at: u32,
        room: RoomName,
    },
    /// The request was refused, and nothing changed.
    No {
        at: u32,
        refusal: Refusal,
    },
}

/// What the new entry is that a reply reports.
#[derive(Clone, Copy, Debug, PartialEq, Eq)]
pub enum EntryKind {
    /// A site joined.
    Join,
    /// An object was created.
    Creation,
    /// An object was changed, by a put or a drop.
    Change,
}

impl Reply {
    ghost use Rattle.wire.specs.Replies.{adds, at_of, entry_kind};

    /// The number of entries before the call, as the reply reports it.
    pub fn at(&self) -> u32
        ensures { result ≡ at_of self.now }
    {
        match self {
            Reply::Joined { at, .. }
            | Reply::Returned { at, .. }
            | Reply::Made { at, .. }
            | Reply::Taken { at, .. }
            | Reply::Versions { at, .. }
            | Reply::Objects { at, .. }
            | Reply::Entries { at, .. }
            | Reply::Left { at }
            | Reply::Notes { at, .. }
            | Reply::Renewed { at, .. }
            | Reply::No { at, .. } => *at,
        }
    }

    /// The kind of the new entry that the reply reports, or `None` if it reports none.
    pub fn entry_kind(&self) -> Option<EntryKind>
        ensures { result ≡ entry_kind self.now }
    {
        match self {
            Reply::Joined { .. } => Some(EntryKind::Join),
            Reply::Made { .. } => Some(EntryKind::Creation),
            Reply::Taken { .. } => Some(EntryKind::Change),
            _ => None,
        }
    }

    /// Does the reply report a new entry?
    pub fn adds(&self) -> bool
        ensures { result ≡ adds self.now }
    {
        self.entry_kind().is_some()
    }
}

impl PartialEq for Reply {
    ghost use Rattle.std.specs.Cmp.{partial_equiv_from_equiv};
    ghost use Rattle.wire.specs.steps.Equality.{same_reply, same_reply-equivalence};

    ghost eq = { same_reply };

    ghost laws = { partial_equiv_from_equiv same_reply-equivalence };

    fn eq(&self, other: &Reply) -> bool {
        match (self, other) {
            (Reply::Joined { .. } | Reply::Returned { .. }, _) => same_entrance(self, other),
            (Reply::Made { .. } | Reply::Taken { .. }, _) => same_change(self, other),
            (Reply::Versions { .. }, _) => same_listing(self, other),
            (Reply::Objects { .. } | Reply::Entries { .. }, _) => same_page(self, other),
            (Reply::Left { at }, Reply::Left { at: other_at }) => *at == *other_at,
            (
                Reply::Notes { at, notes },
                Reply::Notes {
                    at: other_at,
                    notes: other_notes,
                },
            ) => *at == *other_at && *notes == *other_notes,
            (
                Reply::Renewed { at, room },
                Reply::Renewed {
                    at: other_at,
                    room: other_room,
                },
            ) => *at == *other_at && *room == *other_room,
            (
                Reply::No { at, refusal },
                Reply::No {
                    at: other_at,
                    refusal: other_refusal,
                },
            ) => *at == *other_at && *refusal == *other_refusal,
            _ => false,
        }
    }
}

impl Eq for Reply {
    ghost use Rattle.wire.specs.steps.Equality.{same_reply-equivalence};

    ghost laws = { same_reply-equivalence };
}

// Both entered the room as the same site.
fn same_entrance(reply: &Reply, other: &Reply) -> bool
    ensures { result ≡ same_entrance reply.now other.now }
{
    match (reply, other) {
        (
            Reply::Joined { at, site },
            Reply::Joined {
                at: other_at,
                site: other_site,
            },
        ) => *at == *other_at && *site == *other_site,
        (
            Reply::Returned { at, site, seq },
            Reply::Returned {
                at: other_at,
                site: other_site,
                seq: other_seq,
            },
        ) => *at == *other_at && *site == *other_site && *seq == *other_seq,
        _ => false,
    }
}

// Both accepted a change, with the same outcome.
fn same_change(reply: &Reply, other: &Reply) -> bool
    ensures { result ≡ same_change reply.now other.now }
{
    match (reply, other) {
        (
            Reply::Made { at, name },
            Reply::Made {
                at: other_at,
                name: other_name,
            },
        ) => *at == *other_at && *name == *other_name,
        (
            Reply::Taken { at, ids },
            Reply::Taken {
                at: other_at,
                ids: other_ids,
            },
        ) => *at == *other_at && *ids == *other_ids,
        _ => false,
    }
}

// Both show the same versions of an object.
fn same_listing(reply: &Reply, other: &Reply) -> bool
    ensures { result ≡ same_listing reply.now other.now }
{
    match (reply, other) {
        (
            Reply::Versions {
                at,
                object,
                kind,
                versions,
            },
            Reply::Versions {
                at: other_at,
                object: other_object,
                kind: other_kind,
                versions: other_versions,
            },
        ) => {
            *at == *other_at
                && *object == *other_object
                && *kind == *other_kind
                && *versions == *other_versions
        }
        _ => false,
    }
}

// Both are the same page, of the objects or of the record.
fn same_page(reply: &Reply, other: &Reply) -> bool
    ensures { result ≡ same_page reply.now other.now }
{
    match (reply, other) {
        (
            Reply::Objects {
                at,
                from,
                total,
                objects,
            },
            Reply::Objects {
                at: other_at,
                from: other_from,
                total: other_total,
                objects: other_objects,
            },
        ) => {
            *at == *other_at
                && *from == *other_from
                && *total == *other_total
                && *objects == *other_objects
        }
        (
            Reply::Entries { at, from, entries },
            Reply::Entries {
                at: other_at,
                from: other_from,
                entries: other_entries,
            },
        ) => *at == *other_at && *from == *other_from && *entries == *other_entries,
        _ => false,
    }
}
