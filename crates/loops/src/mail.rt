//! What waits for a loop: arrivals, and news in rooms.

ghost use Rattle.std.specs.Prelude.{◌≡◌, ◌≢◌, ◌<◌, ◌≤◌, [], ◌∷◌, ◌++◌, ◌↔◌, IfErr, IfOk, IfSome};
ghost use Rattle.std.specs.Prelude.{IsErr, IsNone, OnErr, OnOk, length, slice_get, slice_set, Some};
ghost use Rattle.std.specs.Prelude.{false, true, vec_capacity};

use crate::client::Arrival;
use std::alloc::{AllocError, Global};

/// An arrival, with its session's number.
#[derive(Drop)]
pub(crate) struct Handed {
    pub(crate) session: u64,
    pub(crate) arrival: Arrival,
}

/// What came for a loop since it last looked.
#[derive(Drop)]
pub(crate) struct News {
    pub(crate) arrivals: Vec<Handed>,
    /// For each place whether there is news in its room.
    pub(crate) rooms: Vec<bool>,
    /// The places of the rooms with news, each once. There is memory for all of them.
    pub(crate) places: Vec<usize>,
}

impl News {
    /// Nothing, with room for news in each of the rooms.
    pub(crate) fn new(alloc: Global, places: usize) -> Result<News, AllocError>
        ensures places { IfOk result (λ news. (news.places.items ≡ [])
            × (places ≤ vec_capacity news.places)) }
        ensures rooms { IfOk result (λ news. length news.rooms.items ≡ places) }
    {
        Ok(News {
            arrivals: Vec::new(alloc),
            rooms: vec![in alloc; false; places]?,
            places: Vec::with_capacity(alloc, places)?,
        })
    }

    /// There is news in the room at this place. Allocates nothing.
    pub(crate) fn add_room(&mut self, place: usize)
        ensures room { self.new.rooms.items ≡ slice_set self.old.rooms.items place true }
        ensures listed { slice_get self.old.rooms.items place ≡ Some false →
            length self.old.places.items < vec_capacity self.old.places →
            self.new.places.items ≡ self.old.places.items ++ place ∷ [] }
        ensures known { slice_get self.old.rooms.items place ≢ Some false →
            self.new.places ≡ self.old.places }
        ensures arrivals { self.new.arrivals ≡ self.old.arrivals }
    {
        if place >= self.rooms.len() || self.rooms[place] {
            return;
        }
        self.rooms[place] = true;
        if self.places.len() < self.places.capacity() {
            self.places.push_reserved(place);
        }
    }

    /// Takes the news of one room, and gives its place. Constant time.
    pub(crate) fn next_room(&mut self) -> Option<usize>
        ensures some { IfSome result (λ place.
            (self.old.places.items ≡ self.new.places.items ++ place ∷ [])
            × (self.new.rooms.items ≡ slice_set self.old.rooms.items place false)) }
        ensures none { IsNone result → self.old.places.items ≡ [] }
    {
        let place = self.places.pop()?;
        if place < self.rooms.len() {
            self.rooms[place] = false;
        }
        Some(place)
    }
}

/// What is to come for a loop.
#[derive(Clone, Copy, Debug, PartialEq, Eq)]
pub(crate) enum Outlook {
    /// More arrivals.
    More,
    /// No more arrivals.
    Last,
    /// No more arrivals, and the server goes away.
    Away,
}

/// The mail of a loop.
#[derive(Drop)]
pub(crate) struct Mail {
    news: News,
    outlook: Outlook,
    /// The loop takes no more arrivals.
    is_closed: bool,
}

impl Mail {
    /// No mail.
    pub(crate) fn new(alloc: Global, places: usize) -> Result<Mail, AllocError> {
        Ok(Mail {
            news: News::new(alloc, places)?,
            outlook: Outlook::More,
            is_closed: false,
        })
    }

    /// Adds an arrival.
    ///
    /// # Errors
    /// The arrival, if the loop takes no more, or an allocation failed.
    pub(crate) fn add_arrival(&mut self, handed: Handed) -> Result<(), Handed>
        ensures ok { OnOk result (self.new.news.arrivals.items
            ≡ self.old.news.arrivals.items ++ handed ∷ []) }
        ensures err { OnErr result (self.new.news.arrivals.items ≡ self.old.news.arrivals.items) }
        ensures back { IfErr result (λ back. back ≡ handed) }
        ensures closed { self.old.is_closed ≡ true → IsErr result }
    {
        if self.is_closed {
            return Err(handed);
        }
        match self.news.arrivals.push(handed) {
            Ok(()) => Ok(()),
            Err(full) => Err(full.value),
        }
    }

    /// There is news in the room at this place. Returns whether there was none in any room, so that
    /// the loop is to be woken. Allocates nothing.
    pub(crate) fn add_room(&mut self, place: usize) -> bool
        ensures room { self.new.news.rooms.items ≡ slice_set self.old.news.rooms.items place true }
        ensures listed { slice_get self.old.news.rooms.items place ≡ Some false →
            length self.old.news.places.items < vec_capacity self.old.news.places →
            self.new.news.places.items ≡ self.old.news.places.items ++ place ∷ [] }
        ensures first { (result ≡ true) ↔ (self.old.news.places.items ≡ []) }
    {
        let is_first = self.news.places.is_empty();
        self.news.add_room(place);
        is_first
    }

    /// There are no more arrivals.
    pub(crate) fn end(&mut self)
        ensures last { self.old.outlook ≢ Outlook.Away →
            self.new ≡ record self.old { outlook = Outlook.Last } }
        ensures away { self.old.outlook ≡ Outlook.Away → self.new ≡ self.old }
    {
        match self.outlook {
            Outlook::More | Outlook::Last => self.outlook = Outlook::Last,
            Outlook::Away => {}
        }
    }

    /// The server goes away. The loop takes no more arrivals.
    pub(crate) fn go_away(&mut self)
        ensures { self.new ≡ record self.old { outlook = Outlook.Away; is_closed = true } }
    {
        self.outlook = Outlook::Away;
        self.is_closed = true;
    }

    /// What is to come.
    pub(crate) fn outlook(&self) -> Outlook
        ensures { result ≡ self.now.outlook }
    {
        self.outlook
    }

    /// The loop takes no more arrivals.
    pub(crate) fn close(&mut self)
        ensures { self.new ≡ record self.old { is_closed = true } }
    {
        self.is_closed = true;
    }

    /// Exchanges what came with this news, which is empty. Returns what is to come.
    pub(crate) fn take(&mut self, empty: &mut News) -> Outlook
        ensures taken { empty.new ≡ self.old.news }
        ensures left { self.new ≡ record self.old { news = empty.old } }
        ensures outlook { result ≡ self.old.outlook }
    {
        std::mem::swap(&mut self.news, empty);
        self.outlook
    }
}
