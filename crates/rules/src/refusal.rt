//! The refusals: for each its cause, its number and its word.

ghost use Rattle.std.specs.Prelude.{◌≡◌};

/// The greatest number of a refusal. Refusals are numbered from 1.
pub const MAX_REFUSAL_CODE: u32 = 22;

/// Why a room or a session refuses a request. Each variant has its number, its word and its cause.
#[derive(Clone, Copy, Debug, PartialEq, Eq)]
pub enum Refusal {
    /// 1, `bad-message`: the bytes are not the text of a request.
    BadMessage,
    /// 2, `not-joined`: the session is in no room, and the request is neither a join nor a back.
    NotJoined,
    /// 3, `already-joined`: the session is in a room, and the request is a join or a back.
    AlreadyJoined,
    /// 4, `no-such-room`: no room has this name.
    NoSuchRoom,
    /// 5, `room-full`: the room has its maximum number of sites.
    RoomFull,
    /// 6, `record-full`: the record has its maximum number of entries.
    RecordFull,
    /// 7, `wrong-seq`: the operation's number is not one more than the number of its site's
    /// operations.
    WrongSeq,
    /// 8, `own-count`: the vector does not count exactly the earlier operations of its own site.
    OwnCount,
    /// 9, `ahead`: the vector counts an operation that is not in the record.
    Ahead,
    /// 10, `not-closed`: the vector counts an operation, but not everything that the operation's
    /// vector counts.
    NotClosed,
    /// 11, `no-such-object`: no creation has this name; for a change, none that its vector counts.
    NoSuchObject,
    /// 12, `no-such-version`: among what the vector counts, the object has no version with this
    /// identifier.
    NoSuchVersion,
    /// 13, `object-full`: the object has its maximum number of changes.
    ObjectFull,
    /// 14, `too-many-keys`: with this put, the changes of the object would have more keys than the
    /// limit.
    TooManyKeys,
    /// 15, `too-many-versions`: with this change, the object would have more versions than the
    /// limit.
    TooManyVersions,
    /// 16, `too-many-objects`: the room has its maximum number of objects.
    TooManyObjects,
    /// 17, `too-far`: the page would start after the last object or entry.
    TooFar,
    /// 18, `gone`: a drop that the vector counts deleted the version.
    Gone,
    /// 19, `no-such-site`: fewer sites than this number have joined the room.
    NoSuchSite,
    /// 20, `site-in-use`: another session is in the room as this site.
    SiteInUse,
    /// 21, `not-served`: the server cannot serve the room now.
    NotServed,
    /// 22, `renewed`: the record has ended, and the room goes on in another one.
    Renewed,
}

impl Refusal {
    ghost use Rattle.rules.specs.Refusals.{code_of, word_of, is_by_session, is_of_back};
    ghost use Rattle.rules.specs.steps.Codes.{refusal_at};

    /// The refusal's number, from 1 to `MAX_REFUSAL_CODE`.
    pub fn code(self) -> u32
        ensures { result ≡ code_of self }
    {
        match self {
            Refusal::BadMessage => 1,
            Refusal::NotJoined => 2,
            Refusal::AlreadyJoined => 3,
            Refusal::NoSuchRoom => 4,
            Refusal::RoomFull => 5,
            Refusal::RecordFull => 6,
            Refusal::WrongSeq => 7,
            Refusal::OwnCount => 8,
            Refusal::Ahead => 9,
            Refusal::NotClosed => 10,
            Refusal::NoSuchObject => 11,
            Refusal::NoSuchVersion => 12,
            Refusal::ObjectFull => 13,
            Refusal::TooManyKeys => 14,
            Refusal::TooManyVersions => 15,
            Refusal::TooManyObjects => 16,
            Refusal::TooFar => 17,
            Refusal::Gone => 18,
            Refusal::NoSuchSite => 19,
            Refusal::SiteInUse => 20,
            Refusal::NotServed => 21,
            Refusal::Renewed => 22,
        }
    }

    /// The refusal's word.
    pub fn word(self) -> &'static str
        ensures { result.now ≡ word_of self }
    {
        match self {
            Refusal::BadMessage => "bad-message",
            Refusal::NotJoined => "not-joined",
            Refusal::AlreadyJoined => "already-joined",
            Refusal::NoSuchRoom => "no-such-room",
            Refusal::RoomFull => "room-full",
            Refusal::RecordFull => "record-full",
            Refusal::WrongSeq => "wrong-seq",
            Refusal::OwnCount => "own-count",
            Refusal::Ahead => "ahead",
            Refusal::NotClosed => "not-closed",
            Refusal::NoSuchObject => "no-such-object",
            Refusal::NoSuchVersion => "no-such-version",
            Refusal::ObjectFull => "object-full",
            Refusal::TooManyKeys => "too-many-keys",
            Refusal::TooManyVersions => "too-many-versions",
            Refusal::TooManyObjects => "too-many-objects",
            Refusal::TooFar => "too-far",
            Refusal::Gone => "gone",
            Refusal::NoSuchSite => "no-such-site",
            Refusal::SiteInUse => "site-in-use",
            Refusal::NotServed => "not-served",
            Refusal::Renewed => "renewed",
        }
    }

    /// Does a session refuse so by itself, without asking a room?
    pub fn is_by_session(self) -> bool
        ensures { result ≡ is_by_session self }
    {
        matches!(
            self,
            Refusal::BadMessage
                | Refusal::NotJoined
                | Refusal::AlreadyJoined
                | Refusal::NoSuchRoom
                | Refusal::NotServed
        )
    }

    /// Is only a back refused so?
    pub fn is_of_back(self) -> bool
        ensures { result ≡ is_of_back self }
    {
        matches!(self, Refusal::NoSuchSite | Refusal::SiteInUse)
    }

    /// The refusal with this number, or `None` if there is none.
    pub fn from_code(code: u32) -> Option<Refusal>
        ensures { result ≡ refusal_at code }
    {
        match code {
            1 => Some(Refusal::BadMessage),
            2 => Some(Refusal::NotJoined),
            3 => Some(Refusal::AlreadyJoined),
            4 => Some(Refusal::NoSuchRoom),
            5 => Some(Refusal::RoomFull),
            6 => Some(Refusal::RecordFull),
            7 => Some(Refusal::WrongSeq),
            8 => Some(Refusal::OwnCount),
            9 => Some(Refusal::Ahead),
            10 => Some(Refusal::NotClosed),
            11 => Some(Refusal::NoSuchObject),
            12 => Some(Refusal::NoSuchVersion),
            13 => Some(Refusal::ObjectFull),
            14 => Some(Refusal::TooManyKeys),
            15 => Some(Refusal::TooManyVersions),
            16 => Some(Refusal::TooManyObjects),
            17 => Some(Refusal::TooFar),
            18 => Some(Refusal::Gone),
            19 => Some(Refusal::NoSuchSite),
            20 => Some(Refusal::SiteInUse),
            21 => Some(Refusal::NotServed),
            22 => Some(Refusal::Renewed),
            _ => None,
        }
    }
}
