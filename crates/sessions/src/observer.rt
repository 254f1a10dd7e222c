//! Observing what sessions do.

use crate::cause::Cause;
use base_types::RoomName;
use keeper::{Change, FileSync, Reason};
use loops::Client;
use wire::{EntryKind, Refusal};

/// Hears of replies, entries, probes, sessions and the keeping of rooms, in the thread that serves
/// them. A method may block its thread, and must change nothing else.
pub trait Observer {
    /// There is a reply: on the room at this place, from 0, or `None` if it reports on no room. It
    /// may be a refusal.
    fn after_reply(&self, _place: Option<usize>, _refusal: Option<Refusal>) {}

    /// The room of this name, at this place from 0, has added an entry of this kind.
    fn after_entry(&self, _room: &RoomName, _place: usize, _kind: EntryKind) {}

    /// A room was opened on demand by a session, at this place from 0. It begins empty.
    fn after_opening(&self, _place: usize) {}

    /// A room could not be opened on demand.
    fn not_served(&self, _reason: Reason) {}

    /// A thread of the keeper changed this.
    fn after_change(&self, _change: &Change) {}

    /// A thread of the keeper wrote and synced a room's file, or failed to.
    fn after_sync(&self, _sync: FileSync) {}

    /// A connection is no probe: a session begins.
    fn before_session(&self) {}

    /// A connection was a probe, and has been answered.
    fn after_probe(&self) {}

    /// A client was turned away, since all places are taken. It was no session.
    fn turned_away(&self) {}

    /// A client was not let in, since the room of its path could not be opened. It was no session.
    fn not_let_in(&self) {}

    /// The session ends. `room` is the room that it is still in.
    fn after_session(&self, client: &Client, room: Option<&RoomName>, cause: Cause);

    /// What was counted, in Prometheus' text format. `None` if nothing is, or an allocation failed.
    fn metrics(&self) -> Option<String> {
        None
    }
}
