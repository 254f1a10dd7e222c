//! How much a room may hold.

ghost use Rattle.std.specs.Prelude.{◌≡◌, ◌↔◌, ◌≤◌, true, IfSome, IsSome};
ghost use Rattle.rules.specs.Limits.{full_limits};
ghost use Rattle.rules.specs.steps.Limits.{is_limit, are_limits};

use std::marker::Model;

/// The limits of a room as plain numbers.
#[derive(Clone, Copy, Debug, PartialEq, Eq)]
pub struct LimitValues {
    /// The sites that may ever join.
    pub joins: u32,
    /// The entries that the record may have.
    pub entries: u32,
    /// The objects that there may be.
    pub objects: u32,
    /// The changes that an object may have: puts and drops.
    pub changes: u32,
    /// The distinct keys that the puts on an object may have.
    pub keys: u32,
    /// The versions that an object may have.
    pub versions: u32,
    /// The objects or entries that a page may have.
    pub page: u32,
}

impl LimitValues {
    /// The full values.
    pub const FULL: LimitValues = LimitValues {
        joins: Limits::MAX_JOINS,
        entries: Limits::MAX_ENTRIES,
        objects: Limits::MAX_OBJECTS,
        changes: Limits::MAX_CHANGES,
        keys: Limits::MAX_KEYS,
        versions: Limits::MAX_VERSIONS,
        page: Limits::MAX_PAGE,
    };
}

/// The limits of a room, each from 1 to its full value.
#[derive(Clone, Copy, Debug, PartialEq, Eq)]
pub struct Limits {
    values: LimitValues,
}

impl Model for Limits {
    ghost use Rattle.std.specs.Prelude.{◌≡◌, true};
    ghost use Rattle.rules.specs.declared.limits.LimitValues.{LimitValues};
    ghost use Rattle.rules.specs.steps.Limits.{are_limits};

    ghost Value = { LimitValues };

    ghost view = { λ limits. limits.values };

    ghost invariant = { λ limits. are_limits limits.values ≡ true };

    ghost inverse = { λ values. record { values = values } };
}

fn is_limit(value: u32, full: u32) -> bool
    ensures { result ≡ is_limit full value }
{
    1 <= value && value <= full
}

impl Limits {
    /// The most sites that may ever join a room.
    pub const MAX_JOINS: u32 = 256;

    /// The most entries of a record.
    pub const MAX_ENTRIES: u32 = 16_384;

    /// The most objects of a room.
    pub const MAX_OBJECTS: u32 = 8192;

    /// The most changes of an object.
    pub const MAX_CHANGES: u32 = 1024;

    /// The most distinct keys in the puts on an object.
    pub const MAX_KEYS: u32 = 64;

    /// The most versions of an object.
    pub const MAX_VERSIONS: u32 = 32;

    /// The most objects or entries of a page.
    pub const MAX_PAGE: u32 = 64;

    /// The full limits: 256 joins, 16,384 entries and 8,192 objects. An object has 1,024 changes,
    /// 64 keys and 32 versions. A page has 64 items.
    pub fn full() -> Limits
        ensures { result ≡ full_limits }
    {
        Limits {
            values: LimitValues::FULL,
        }
    }

    /// Makes limits of these values. Returns `None` if one is 0 or above its full value.
    pub fn new(values: LimitValues) -> Option<Limits>
        ensures value { IfSome result (λ limits. limits ≡ values) }
        ensures in_range { IsSome result ↔ (are_limits values ≡ true) }
    {
        let within = is_limit(values.joins, Limits::MAX_JOINS)
            && is_limit(values.entries, Limits::MAX_ENTRIES)
            && is_limit(values.objects, Limits::MAX_OBJECTS)
            && is_limit(values.changes, Limits::MAX_CHANGES)
            && is_limit(values.keys, Limits::MAX_KEYS)
            && is_limit(values.versions, Limits::MAX_VERSIONS)
            && is_limit(values.page, Limits::MAX_PAGE);
        if within {
            Some(Limits { values })
        } else {
            None
        }
    }

    /// How many sites may ever join.
    pub fn joins(&self) -> u32
        ensures value { result ≡ self.now.joins }
        ensures range { self.now.joins ≤ Limits.MAX_JOINS }
    {
        self.values.joins
    }

    /// How many entries the record may have.
    pub fn entries(&self) -> u32
        ensures value { result ≡ self.now.entries }
        ensures range { self.now.entries ≤ Limits.MAX_ENTRIES }
    {
        self.values.entries
    }

    /// How many objects there may be.
    pub fn objects(&self) -> u32
        ensures value { result ≡ self.now.objects }
        ensures range { self.now.objects ≤ Limits.MAX_OBJECTS }
    {
        self.values.objects
    }

    /// How many changes an object may have.
    pub fn changes(&self) -> u32
        ensures value { result ≡ self.now.changes }
        ensures range { self.now.changes ≤ Limits.MAX_CHANGES }
    {
        self.values.changes
    }

    /// How many distinct keys the puts on an object may have.
    pub fn keys(&self) -> u32
        ensures value { result ≡ self.now.keys }
        ensures range { self.now.keys ≤ Limits.MAX_KEYS }
    {
        self.values.keys
    }

    /// How many versions an object may have.
    pub fn versions(&self) -> u32
        ensures value { result ≡ self.now.versions }
        ensures least { 1 ≤ self.now.versions }
        ensures range { self.now.versions ≤ Limits.MAX_VERSIONS }
    {
        self.values.versions
    }

    /// How many objects or entries a page may have.
    pub fn page(&self) -> u32
        ensures value { result ≡ self.now.page }
        ensures range { self.now.page ≤ Limits.MAX_PAGE }
    {
        self.values.page
    }
}
