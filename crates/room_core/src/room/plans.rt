//! The plans of a room's answers: to joins and operations, and to what only reads.

ghost use Rattle.std.specs.Prelude.{◌≡◌, ◌+◌, length, false, true, None, Some, IfOk};
ghost use Rattle.base_types.specs.Names.{is_op_name};
ghost use Rattle.rules.specs.declared.history.Op.{Op as AnyOp};
ghost use Rattle.rules.specs.declared.history.Entry.TheVariants.{Join, Operation};
ghost use Rattle.rules.specs.Records.{sites, is_placed};
ghost use Rattle.wire.specs.declared.reply.Reply.{Reply as AnyReply};
ghost use Rattle.wire.specs.declared.reply.Reply.TheVariants.{No};
ghost use Rattle.drawing.specs.steps.Additions.{ids_of, IsReady as CanBeAdded};
ghost use Rattle.drawing.specs.steps.State.{DrawingState};
ghost use Rattle.room_core.specs.Answers.{join_answer, operation_answer, operation_by, entry_answer, list_reply, pull_reply, has_site};
ghost use Rattle.room_core.specs.steps.Plans.{entry_added, outcome, order_refusal, refusal_in, reply_by, IsAdmitted, IsPlanReady, Plans};

use super::RoomState;
use crate::planned::Planned;
use base_types::{NoMemory, OpName, StateVector};
use drawing::{AddFault, Addition};
use rules::{Body, Op, Refusal, SharedOp};
use std::alloc::Global;
use wire::{IdList, Reply};

impl RoomState {
    /// The reply that refuses for this cause.
    fn refuse(&self, refusal: Refusal) -> Planned
        ensures reply { result.reply ≡ No (length self.now.room.entries) refusal }
        ensures addition { result.addition ≡ None }
    {
        Planned::of_reply(Reply::No {
            at: self.drawing.len(),
            refusal,
        })
    }

    /// Why the next join is refused, if it is.
    #[tactic(auto, unfolding(rules::specs::Records::refusal))]
    fn join_refusal(&self) -> Option<Refusal>
        ensures { result ≡ refusal_in self.now.room (Join (sites self.now.room.entries + 1)) }
    {
        if self.has_ended() {
            Some(Refusal::Renewed)
        } else if self.sites >= self.drawing.limits().joins() {
            Some(Refusal::RoomFull)
        } else if self.drawing.is_full() {
            Some(Refusal::RecordFull)
        } else {
            None
        }
    }

    /// Prepares the answer to the next join. The room stays as it is.
    ///
    /// # Errors
    ///
    /// `NoMemory` if an allocation failed.
    #[tactic(auto, unfolding(crate::specs::Answers::join_answer))]
    pub fn plan_join(&mut self, alloc: Global) -> Result<Planned, NoMemory>
        ensures { Plans self.old self.new (join_answer self.old.room) result }
    {
        if let Some(refusal) = self.join_refusal() {
            return Ok(self.refuse(refusal));
        }
        let at = self.drawing.len();
        let site = self.sites() + 1;
        let addition = self.drawing.plan_join(alloc, site)?;
        Ok(Planned {
            reply: Reply::Joined { at, site },
            addition: Some(addition),
        })
    }
}

impl RoomState {
    /// Plans the answer to an operation of a site that has joined. The room stays as it is.
    pub(super) fn plan_operation(
        &mut self,
        alloc: Global,
        site: u32,
        seq: u32,
        seen: StateVector,
        body: Body,
    ) -> Result<Planned, NoMemory>
        requires { has_site self.old.room site ≡ true }
        ensures { Plans self.old self.new
            (operation_answer self.old.room (operation_by site seq seen body)) result }
    {
        let Some(name) = OpName::new(site, seq) else {
            drop((seen, body));
            return Ok(self.refuse_out_of_range(site, seq));
        };
        // That a vector is in range is part of what stays true of it.
        let _pairs = seen.pairs();
        let op = Op { name, seen, body };
        if let Some(refusal) = self.order_refusal(&op) {
            drop(op);
            return Ok(self.refuse(refusal));
        }
        self.plan_in_order(alloc, SharedOp::new(alloc, op)?)
    }

    /// Plans the answer to an operation that is placed. The room stays as it is.
    pub(super) fn plan_placed(&mut self, alloc: Global, op: SharedOp) -> Result<Planned, NoMemory>
        requires { is_placed self.old.room.entries (Operation op) ≡ true }
        ensures { Plans self.old self.new (operation_answer self.old.room op) result }
    {
        match self.order_refusal(&op) {
            Some(refusal) => Ok(self.refuse(refusal)),
            None => self.plan_in_order(alloc, op),
        }
    }

    /// Plans the answer to an operation that is placed, and may come next whatever it does. The room
    /// stays as it is.
    fn plan_in_order(&mut self, alloc: Global, op: SharedOp) -> Result<Planned, NoMemory>
        requires placed { is_placed self.old.room.entries (Operation op) ≡ true }
        requires order { order_refusal self.old.room op ≡ None }
        ensures { Plans self.old self.new (operation_answer self.old.room op) result }
    {
        let name = op.name;
        match self.drawing.plan(alloc, op) {
            Ok(addition) => Ok(self.answer_added(alloc, name, addition)),
            Err(AddFault::Refused(refusal)) => Ok(self.refuse(refusal)),
            Err(AddFault::NoMemory) => Err(NoMemory),
        }
    }

    /// Why an operation is refused, whatever it does, if it is.
    #[tactic(auto, unfolding(rules::specs::steps::Histories::causal_refusal))]
    fn order_refusal(&self, op: &Op) -> Option<Refusal>
        ensures { result ≡ order_refusal self.now.room op.now }
    {
        if self.has_ended() {
            return Some(Refusal::Renewed);
        }
        if self.drawing.is_full() {
            return Some(Refusal::RecordFull);
        }
        match self.drawing.past().admit(op.name, &op.seen) {
            Ok(()) => None,
            Err(fault) => Some(Refusal::from(fault)),
        }
    }

    /// The answer to an operation of this name that is added so.
    fn answer_added(&self, alloc: Global, name: OpName, mut addition: Addition) -> Planned
        ensures reply { result.reply
            ≡ reply_by (length self.now.room.entries) name (ids_of addition.part) }
        ensures entry { entry_added result.addition ≡ Some addition.entry }
        ensures ready { (s : DrawingState) → CanBeAdded s addition
            → IsAdmitted s.room addition.entry → IsPlanReady s result.addition }
    {
        let at = self.drawing.len();
        let reply = match addition.take_ids(alloc) {
            Some(ids) => Reply::Taken {
                at,
                ids: IdList::from_ids(ids),
            },
            None => Reply::Made { at, name },
        };
        Planned {
            reply,
            addition: Some(addition),
        }
    }

    /// The answer to an operation of a site that has joined, whose number is out of range.
    fn refuse_out_of_range(&self, site: u32, seq: u32) -> Planned
        requires joined { has_site self.now.room site ≡ true }
        requires out_of_range { is_op_name (site, seq) ≡ false }
        ensures planned { (op : AnyOp) (reply : AnyReply) → op.name ≡ (site, seq)
            → outcome result ≡ entry_answer self.now.room (Operation op) reply }
        ensures addition { result.addition ≡ None }
    {
        let _sites = self.sites();
        if self.has_ended() {
            self.refuse(Refusal::Renewed)
        } else if self.drawing.is_full() {
            self.refuse(Refusal::RecordFull)
        } else {
            self.refuse(Refusal::WrongSeq)
        }
    }
}

impl RoomState {
    /// Plans to give a page of the objects.
    pub(super) fn plan_list(&self, alloc: Global, from: u32) -> Result<Planned, NoMemory>
        ensures reply { IfOk result (λ p. p.reply ≡ list_reply self.now.room from) }
        ensures addition { IfOk result (λ p. p.addition ≡ None) }
    {
        let total = self.drawing.count_objects();
        if from > total {
            return Ok(self.refuse(Refusal::TooFar));
        }
        Ok(Planned::of_reply(Reply::Objects {
            at: self.drawing.len(),
            from,
            total,
            objects: self.drawing.page(alloc, from)?,
        }))
    }

    /// Plans to give a page of the record.
    pub(super) fn plan_pull(&mut self, alloc: Global, from: u32) -> Result<Planned, NoMemory>
        ensures reply { IfOk result (λ p. p.reply ≡ pull_reply self.old.room from) }
        ensures addition { IfOk result (λ p. p.addition ≡ None) }
        ensures room { self.new.room ≡ self.old.room }
    {
        let at = self.drawing.len();
        if from > at {
            return Ok(self.refuse(Refusal::TooFar));
        }
        let entries = self.drawing.entries_page(alloc, from)?;
        Ok(Planned::of_reply(Reply::Entries { at, from, entries }))
    }
}
