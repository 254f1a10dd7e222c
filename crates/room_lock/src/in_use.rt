//! The proof at run time that a session is in as a site.

ghost use Rattle.std.specs.Prelude.{◌≡◌, ◌↔◌, IfSome, IsSome, true};
ghost use Rattle.room_lock.specs.Shelves.{is_away};

use crate::prefix::Prefix;
use crate::room::Room;
use openings::RoomHistories;
use std::marker::Model;

/// The proof at run time that a session is in as a site: the site's part is not on the shelf of
/// the room while the room has this record. Only a room under its lock gives one.
#[derive(Drop)]
pub struct InUse<P: RoomHistories> {
    prefix: Prefix<P>,
    site: u32,
}

impl<P: RoomHistories> Model for InUse<P> {
    ghost use Rattle.room_lock.specs.steps.Views.{InUseView};

    ghost Value = { InUseView };

    ghost view = { λ it. record { prefix = it.prefix; site = it.site } };
}

impl<P: RoomHistories> InUse<P> {
    /// Shows that a session is in as this site of the room, if one is.
    pub(crate) fn of(room: &Room<P>, site: u32) -> Option<InUse<P>>
        ensures away { IsSome result ↔ (is_away room.now.shelf site ≡ true) }
        ensures room { IfSome result (λ it. it ≡ record {
          prefix = record { opening = room.now.opening; entries = room.now.entries };
          site = site;
        }) }
    {
        if !room.is_away(site) {
            return None;
        }
        Some(InUse {
            prefix: room.prefix(),
            site,
        })
    }

    /// The record at the time when a session is in as the site.
    pub fn into_prefix(self) -> Prefix<P>
        ensures { result ≡ self.prefix }
    {
        let InUse { prefix, site: _ } = self;
        prefix
    }

    /// The number of the site.
    pub fn site(&self) -> u32
        ensures { result ≡ self.now.site }
    {
        self.site
    }
}
