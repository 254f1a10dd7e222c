//! A history, and the prefixes of it that were seen.

ghost use Rattle.std.specs.Prelude.{◌≡◌, ◌+◌, ◌<◌, ◌≤◌, ◌^◌, ◌++◌, ◌∷◌, [], length, map, MatchBool};
ghost use Rattle.std.specs.Arc.{arc_value};
ghost use mathlib.Core.List.{IsPrefix};

use crate::rule::{Add, Law, Nothing};
use logbook::{Offer, Seen, Start, Word};
use rules::Entry;
use std::marker::Model;
use std::sync::{Arc, Wait};
use std::thread::yield_now;

/// The history of one room. At run time it is the number of entries. Contracts see its identity.
#[derive(Drop)]
pub struct History {
    count: Word<Entry, u64, Law>,
}

impl Model for History {
    ghost use Rattle.std.specs.Prelude.{◌≡◌};
    ghost use Rattle.logbook.specs.Pages.{Book};
    ghost use Rattle.shared_history.specs.steps.Rules.{entry_counter_of};

    ghost Value = { Book };

    ghost view = { λ history. history.count.book };

    ghost invariant = { λ history. history.count ≡ entry_counter_of history.count.book };
}

/// A prefix of a history that its holder has seen. At run time it is the number of entries.
/// Contracts see which history it belongs to and the entries of the prefix.
#[derive(Drop)]
pub struct Front {
    count: u64,
    seen: Seen<Entry, u64, Law>,
}

impl Model for Front {
    ghost use Rattle.std.specs.Prelude.{◌≡◌, length};
    ghost use Rattle.shared_history.specs.steps.Fronts.{FrontView};

    ghost Value = { FrontView };

    ghost view = { λ front. record { history = front.seen.book; entries = front.seen.log } };

    ghost invariant = { λ front. front.count ≡ length front.seen.log };
}

/// A new history without entries, and a front that has seen none.
pub fn open() -> (History, Front)
    ensures history { result.1.history ≡ result.0 }
    ensures entries { result.1.entries ≡ [] }
{
    let (seen, mut pen, _other) = Seen::open(Start::alone(), 0, 0);
    let count = Word::tracked(0, &mut pen);
    (History { count }, Front { count: 0, seen })
}

impl Front {
    /// The number of entries in the prefix.
    pub fn len(&self) -> u64
        ensures { result ≡ length self.now.entries }
    {
        self.count
    }

    /// Another front that has seen the same prefix.
    pub fn copy(&self) -> Front
        ensures { result ≡ self.now }
    {
        Front {
            count: self.count,
            seen: self.seen.again(),
        }
    }

    /// Appends an entry to the history, right after what this front has seen. Does not return if
    /// the history has more entries than this front has seen. Callers that append under one lock by
    /// one front never meet that case.
    pub fn add<R: Wait>(&mut self, rt: &R, history: &History, entry: &Entry)
        requires history { self.old.history ≡ history.now }
        requires count { length self.old.entries < 2 ^ 62 }
        ensures history { self.new.history ≡ self.old.history }
        ensures entries { self.new.entries ≡ self.old.entries ++ entry.now ∷ [] }
    {
        for _ in rt.forever() {
            if self.try_add(history, entry) {
                return;
            }
            yield_now();
        }
        unreachable!()
    }

    /// Appends entries to the history in order, each as `add` does.
    pub fn add_all<R: Wait>(&mut self, rt: &R, history: &History, entries: &[Arc<Entry>])
        requires history { self.old.history ≡ history.now }
        requires count { length self.old.entries + length entries.now < 2 ^ 62 }
        ensures history { self.new.history ≡ self.old.history }
        ensures entries { self.new.entries ≡ self.old.entries ++ map arc_value entries.now }
    {
        for entry in entries {
            self.add(rt, history, entry);
        }
    }

    /// Appends an entry if the history has no more entries than this front has seen. Returns
    /// whether it did.
    fn try_add(&mut self, history: &History, entry: &Entry) -> bool
        requires history { self.old.history ≡ history.now }
        requires count { length self.old.entries < 2 ^ 62 }
        ensures history { self.new.history ≡ self.old.history }
        ensures entries { MatchBool result
            (self.new.entries ≡ self.old.entries ++ entry.now ∷ [])
            (self.new ≡ self.old) }
    {
        let mut seen = self.seen.again();
        let mut offer: Offer<Entry, u64, Law, Nothing> = seen.plain::<Nothing, Entry, Add>(entry);
        let mut pen = seen.no_pen();
        let count = self.count;
        let found = history
            .count
            .compare_exchange::<Add, Nothing>(count, count + 1, &mut seen, &mut offer, &mut pen);
        if found != count {
            return false;
        }
        self.seen = seen;
        self.count = count + 1;
        true
    }

    /// Proves that of two fronts of one history the shorter is a prefix of the longer. It has no
    /// effect at run time.
    pub fn shorter_begins_longer(&self, other: &Front)
        requires { self.now.history ≡ other.now.history }
        ensures { length self.now.entries ≤ length other.now.entries →
            IsPrefix self.now.entries other.now.entries }
    {
        let mut both = self.seen.again();
        both.learn(&other.seen);
    }
}
