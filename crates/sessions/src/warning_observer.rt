//! Warnings of sessions.

use crate::cause::Cause;
use crate::observer::Observer;
use base_types::RoomName;
use keeper::{Change, FileSync, Reason};
use log::{Log, warn};
use loops::Client;
use wire::{EntryKind, Refusal};

/// An observer that logs a warning for each session that did not end `Closed` or `NotKept`; of the
/// latter the observer hears once for all sessions. It hands all events on to another observer.
#[derive(Drop)]
pub(crate) struct WarningObserver<'a, R, O> {
    pub(crate) rt: &'a R,
    pub(crate) observer: &'a O,
}

impl<R: Log, O: Observer> Observer for WarningObserver<'_, R, O> {
    fn after_reply(&self, place: Option<usize>, refusal: Option<Refusal>) {
        self.observer.after_reply(place, refusal);
    }

    fn after_entry(&self, room: &RoomName, place: usize, kind: EntryKind) {
        self.observer.after_entry(room, place, kind);
    }

    fn after_opening(&self, place: usize) {
        self.observer.after_opening(place);
    }

    fn not_served(&self, reason: Reason) {
        self.observer.not_served(reason);
    }

    fn after_change(&self, change: &Change) {
        self.observer.after_change(change);
    }

    fn after_sync(&self, sync: FileSync) {
        self.observer.after_sync(sync);
    }

    fn before_session(&self) {
        self.observer.before_session();
    }

    fn after_probe(&self) {
        self.observer.after_probe();
    }

    fn turned_away(&self) {
        self.observer.turned_away();
    }

    fn not_let_in(&self) {
        self.observer.not_let_in();
    }

    fn after_session(&self, client: &Client, room: Option<&RoomName>, cause: Cause) {
        if !matches!(cause, Cause::Closed | Cause::NotKept) {
            match room {
                Some(room) => {
                    let room = room.text();
                    warn!(self.rt; "{client} room {room}: {cause}");
                }
                None => warn!(self.rt; "{client}: {cause}"),
            }
        }
        self.observer.after_session(client, room, cause);
    }

    fn metrics(&self) -> Option<String> {
        self.observer.metrics()
    }
}
