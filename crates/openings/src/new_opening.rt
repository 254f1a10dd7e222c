//! A room that is to be opened.

ghost use Rattle.std.specs.Prelude.{◌≡◌};

use base_types::RoomName;
use shared_history::History;
use std::marker::Model;

/// A room that is to be opened: its place, its name, and the history that was begun for it.
#[derive(Drop)]
pub struct NewOpening {
    place: usize,
    name: RoomName,
    history: History,
}

impl Model for NewOpening {
    ghost use Rattle.openings.specs.Openings.{Opened};

    ghost Value = { Opened };

    ghost view = { λ new. record {
      place = new.place;
      name = new.name;
      history = new.history;
    } };
}

impl NewOpening {
    /// A room at this place and of this name, with this history.
    pub fn new(place: usize, name: RoomName, history: History) -> NewOpening
        ensures { result ≡ record { place = place; name = name; history = history } }
    {
        NewOpening {
            place,
            name,
            history,
        }
    }

    /// The place.
    pub(crate) fn place(&self) -> usize
        ensures { result ≡ self.now.place }
    {
        self.place
    }

    /// Consumes it for the history.
    pub fn into_history(self) -> History
        ensures { result ≡ self.history }
    {
        self.history
    }
}
