//! Entries of another record, added where they may come next.

ghost use Rattle.std.specs.Prelude.{◌≡◌, ℕ, is_some, IfOk, OnOk, OnErr};
ghost use Rattle.rules.specs.declared.history.Entry.TheVariants.{Join, Next, Operation};
ghost use Rattle.rules.specs.Records.{is_placed, admits};
ghost use Rattle.room_core.specs.Room.{with_entry};
ghost use Rattle.room_core.specs.steps.Plans.{admitted, entry_added, refusal_in, IsPlanReady};

use super::RoomState;
use crate::planned::Planned;
use base_types::NoMemory;
use rules::{Entry, Limits, Op, Refusal, SharedOp};
use std::alloc::Global;

impl RoomState {
    /// Adds an entry if it may come next, and tells whether it may. It may if it is a join of the
    /// next site, an operation of a site that has joined or the record's end, and the room wouldn't
    /// refuse it. Takes the time of the answer to a request for the entry. If the entry may not
    /// come next, the room stays as it is.
    ///
    /// # Errors
    ///
    /// `NoMemory` if an allocation failed. The room stays as it is.
    pub fn accept(&mut self, alloc: Global, entry: &Entry) -> Result<bool, NoMemory>
        ensures accepted { let room = self.old.room
            in IfOk result (λ accepted. accepted ≡ admits room.limits room.entries entry.now) }
        ensures room { OnOk result
            (self.new.room ≡ with_entry self.old.room (admitted self.old.room entry.now)) }
        ensures err { OnErr result (self.new.room ≡ self.old.room) }
    {
        match entry {
            Entry::Join(site) => self.accept_join(alloc, *site),
            Entry::Operation(op) => self.accept_operation(alloc, op),
            Entry::Next(count) => self.end(alloc, *count),
        }
    }

    /// The same for the join of a site.
    fn accept_join(&mut self, alloc: Global, site: u32) -> Result<bool, NoMemory>
        ensures accepted { let room = self.old.room
            in IfOk result (λ accepted. accepted ≡ admits room.limits room.entries (Join site)) }
        ensures room { OnOk result
            (self.new.room ≡ with_entry self.old.room (admitted self.old.room (Join site))) }
        ensures err { OnErr result (self.new.room ≡ self.old.room) }
    {
        if site != self.sites() + 1 {
            return Ok(false);
        }
        let planned = self.plan_join(alloc)?;
        Ok(self.carry_out(planned))
    }

    /// The same for an operation.
    fn accept_operation(&mut self, alloc: Global, op: &Op) -> Result<bool, NoMemory>
        ensures accepted { let room = self.old.room
            in IfOk result (λ accepted. accepted ≡ admits room.limits room.entries (Operation op.now)) }
        ensures room { OnOk result
            (self.new.room ≡ with_entry self.old.room (admitted self.old.room (Operation op.now))) }
        ensures err { OnErr result (self.new.room ≡ self.old.room) }
    {
        if !self.is_placed(op) {
            return Ok(false);
        }
        let copied = SharedOp::new(alloc, op.copy(alloc)?)?;
        let planned = self.plan_placed(alloc, copied)?;
        Ok(self.carry_out(planned))
    }

    /// Is this an operation of a site that has joined?
    fn is_placed(&self, op: &Op) -> bool
        ensures { result ≡ is_placed self.now.room.entries (Operation op.now) }
    {
        // That a vector is in range is part of what stays true of it.
        let _pairs = op.seen.pairs();
        op.name.site() >= 1 && op.name.site() <= self.sites()
    }

    /// Carries out what was planned for the room as it is now. Tells whether an entry was added.
    fn carry_out(&mut self, planned: Planned) -> bool
        requires { IsPlanReady self.old planned.addition }
        ensures added { result ≡ is_some (entry_added planned.addition) }
        ensures room { self.new.room ≡ with_entry self.old.room (entry_added planned.addition) }
    {
        let is_added = planned.entry().is_some();
        drop(self.commit(planned));
        is_added
    }

    /// Ends the record, which goes on with so many entries in another, and tells whether it may
    /// end. It may unless it has ended, it is full, or `count` is above the most entries of a
    /// record. Otherwise the room stays as it is.
    ///
    /// # Errors
    ///
    /// `NoMemory` if an allocation failed. The room stays as it is.
    pub fn end(&mut self, alloc: Global, count: u32) -> Result<bool, NoMemory>
        ensures ended { let room = self.old.room
            in IfOk result (λ ended. ended ≡ admits room.limits room.entries (Next count)) }
        ensures room { OnOk result
            (self.new.room ≡ with_entry self.old.room (admitted self.old.room (Next count))) }
        ensures err { OnErr result (self.new.room ≡ self.old.room) }
    {
        if !self.may_end(count) {
            return Ok(false);
        }
        let addition = self.drawing.plan_end(alloc, count)?;
        self.add(addition);
        Ok(true)
    }

    /// May the record end, and go on with so many entries in another?
    fn may_end(&self, count: u32) -> bool
        ensures { result ≡ admits self.now.room.limits self.now.room.entries (Next count) }
    {
        count <= Limits::MAX_ENTRIES && self.end_refusal().is_none()
    }

    /// Why the end is refused, if it is.
    #[tactic(auto, unfolding(rules::specs::Records::refusal))]
    fn end_refusal(&self) -> Option<Refusal>
        ensures { (count : ℕ) → result ≡ refusal_in self.now.room (Next count) }
    {
        if self.has_ended() {
            Some(Refusal::Renewed)
        } else if self.drawing.is_full() {
            Some(Refusal::RecordFull)
        } else {
            None
        }
    }
}
