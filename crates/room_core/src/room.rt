//! A room.

ghost use Rattle.std.specs.Prelude.{◌≡◌, ◌≤◌, ◌+◌, ◌||◌, length, map, true, Some, IfOk, OnOk, OnErr, if◌then◌else◌};
ghost use Rattle.std.specs.Arc.{arc_value};
ghost use Rattle.rules.specs.declared.limits.TheConstants.Limits.{MAX_JOINS};
ghost use Rattle.rules.specs.Operations.{name_of};
ghost use Rattle.rules.specs.Records.{has_ended, is_end, is_join, objects, sites, IsLegal};
ghost use Rattle.wire.specs.declared.reply.Reply.TheVariants.{No};
ghost use Rattle.drawing.specs.Shown.{shown};
ghost use Rattle.drawing.specs.steps.Additions.{IsReady as CanBeAdded};
ghost use Rattle.room_core.specs.Room.{with_entry, empty_room};
ghost use Rattle.room_core.specs.Answers.{join_answer, back_reply, answer, site_answer, has_site, room_after};
ghost use Rattle.room_core.specs.steps.Plans.{entry_added, IsAdmitted, IsPlanReady, Plans};
ghost use Rattle.room_core.specs.steps.SiteRequests.{request_for};

mod accepted;
mod plans;

use crate::planned::Planned;
use crate::site_request::{Form, SiteRequest};
use base_types::{NoMemory, OpName};
use drawing::{Addition, Drawing};
use rules::{Entry, Limits, Refusal, SharedOp};
use std::alloc::Global;
use std::marker::Model;
use std::sync::Arc;
use wire::{Reply, Request};

/// A room: its record of joins and operations, and what these draw.
pub struct RoomState {
    drawing: Drawing,
    sites: u32,
    has_ended: bool,
}

// Crates above prove one call for this, and not the drop of each part.
impl Drop for RoomState {
    fn drop(self) {
        let RoomState {
            drawing: _,
            sites: _,
            has_ended: _,
        } = self;
    }
}

impl Model for RoomState {
    ghost use Rattle.drawing.specs.steps.State.{DrawingState};
    ghost use Rattle.room_core.specs.steps.Kept.{IsRoom};

    ghost Value = { DrawingState };

    ghost view = { λ s. s.drawing };

    ghost invariant = { λ s. IsRoom s.drawing.room s.sites s.has_ended };
}

impl RoomState {
    /// An empty room under these limits.
    ///
    /// # Errors
    ///
    /// `NoMemory` if an allocation failed.
    pub fn new(alloc: Global, limits: Limits) -> Result<RoomState, NoMemory>
        ensures { IfOk result (λ state. state.room ≡ empty_room limits) }
    {
        let drawing = Drawing::new(alloc, limits)?;
        Ok(RoomState {
            drawing,
            sites: 0,
            has_ended: false,
        })
    }

    /// Answers a join, and adds it if the limits allow it.
    ///
    /// # Errors
    ///
    /// `NoMemory` if an allocation failed. The room stays as it is.
    pub fn join(&mut self, alloc: Global) -> Result<Reply, NoMemory>
        ensures reply { IfOk result (λ reply. reply ≡ (join_answer self.old.room).0) }
        ensures room { OnOk result
            (self.new.room ≡ room_after self.old.room (join_answer self.old.room)) }
        ensures err { OnErr result (self.new.room ≡ self.old.room) }
    {
        let planned = self.plan_join(alloc)?;
        Ok(self.commit(planned))
    }

    /// Answers a request of a site, and adds the operation if it is one that is taken.
    ///
    /// # Errors
    ///
    /// `NoMemory` if an allocation failed. The room stays as it is.
    pub fn answer(&mut self, alloc: Global, asked: SiteRequest) -> Result<Reply, NoMemory>
        ensures reply { IfOk result (λ reply.
            reply ≡ (answer self.old.room asked.site asked.request).0) }
        ensures room { OnOk result
            (self.new.room ≡ room_after self.old.room (answer self.old.room asked.site asked.request)) }
        ensures err { OnErr result (self.new.room ≡ self.old.room) }
    {
        let planned = match asked.into_form() {
            Form::Operation(op) => self.plan_stored(alloc, op)?,
            Form::Other(site, request) => self.plan(alloc, site, Box::into_inner(request))?,
        };
        Ok(self.commit(planned))
    }

    /// The answer to a session that comes back as this site. `in_use` tells whether another session
    /// is in as it. A refusal is `NoSuchSite` if fewer sites have joined, or else `SiteInUse`. The
    /// room stays as it is.
    pub fn back(&self, site: u32, in_use: bool) -> Reply
        ensures { result ≡ back_reply self.now.room in_use site }
    {
        let at = self.drawing.len();
        if site == 0 || site > self.sites() {
            return Reply::No {
                at,
                refusal: Refusal::NoSuchSite,
            };
        }
        if in_use {
            return Reply::No {
                at,
                refusal: Refusal::SiteInUse,
            };
        }
        Reply::Returned {
            at,
            site,
            seq: self.drawing.past().count(site),
        }
    }

    /// The names of the objects, in order of creation. Linear in their number.
    ///
    /// # Errors
    ///
    /// `NoMemory` if an allocation failed.
    pub fn names(&self, alloc: Global) -> Result<Vec<OpName>, NoMemory>
        ensures { IfOk result (λ names.
            names.items ≡ map name_of (objects self.now.room.entries)) }
    {
        self.drawing.names(alloc)
    }

    /// The versions of an object, or the refusal `NoSuchObject` if no object has this name.
    ///
    /// # Errors
    ///
    /// `NoMemory` if an allocation failed.
    pub fn show(&self, alloc: Global, object: OpName) -> Result<Reply, NoMemory>
        ensures { IfOk result (λ reply. reply ≡ shown self.now.room.entries object) }
    {
        self.drawing.show(alloc, object)
    }

    /// Prepares the answer to a request of a site. The room stays as it is.
    ///
    /// # Errors
    ///
    /// `NoMemory` if an allocation failed.
    #[tactic(auto, unfolding(crate::specs::Answers::answer))]
    pub fn plan(&mut self, alloc: Global, site: u32, request: Request) -> Result<Planned, NoMemory>
        ensures { Plans self.old self.new (answer self.old.room site request) result }
    {
        if site == 0 || site > self.sites() {
            drop(request);
            return Ok(Planned::of_reply(outside_refusal(Refusal::NotJoined)));
        }
        self.plan_asked(alloc, site, request)
    }

    /// Plans the answer to the request for an operation. The room stays as it is.
    #[tactic(auto, unfolding(crate::specs::Answers::answer))]
    fn plan_stored(&mut self, alloc: Global, op: SharedOp) -> Result<Planned, NoMemory>
        ensures { let asked = request_for op
            in Plans self.old self.new (answer self.old.room asked.site asked.request) result }
    {
        // That a vector is in range is part of what stays true of it.
        let _pairs = op.seen.pairs();
        if op.name.site() > self.sites() {
            return Ok(Planned::of_reply(outside_refusal(Refusal::NotJoined)));
        }
        self.plan_placed(alloc, op)
    }

    /// Plans the answer to a request of a site that has joined. The room stays as it is.
    fn plan_asked(
        &mut self,
        alloc: Global,
        site: u32,
        request: Request,
    ) -> Result<Planned, NoMemory>
        requires { has_site self.old.room site ≡ true }
        ensures { Plans self.old self.new (site_answer self.old.room site request) result }
    {
        match request {
            Request::Join { .. } | Request::Back { .. } => {
                Ok(Planned::of_reply(outside_refusal(Refusal::AlreadyJoined)))
            }
            Request::Change { seq, seen, body } => {
                self.plan_operation(alloc, site, seq, seen, body)
            }
            Request::Show { object } => Ok(Planned::of_reply(self.drawing.show(alloc, object)?)),
            Request::List { from } => self.plan_list(alloc, from),
            Request::Pull { from, waits: _ } => self.plan_pull(alloc, from),
            Request::Leave => Ok(Planned::of_reply(Reply::Left {
                at: self.drawing.len(),
            })),
        }
    }

    /// Carries out what was planned for the room as it is now, and gives the reply. No allocation.
    pub fn commit(&mut self, planned: Planned) -> Reply
        requires { IsPlanReady self.old planned.addition }
        ensures reply { result ≡ planned.reply }
        ensures room { self.new.room ≡ with_entry self.old.room (entry_added planned.addition) }
    {
        let (reply, addition) = planned.into_parts();
        if let Some(addition) = addition {
            self.add(addition);
        }
        reply
    }

    /// Adds an entry that is admitted. Takes no memory.
    fn add(&mut self, addition: Addition)
        requires ready { CanBeAdded self.old addition }
        requires admitted { IsAdmitted self.old.room addition.entry }
        ensures { self.new.room ≡ with_entry self.old.room (Some addition.entry) }
    {
        let joined = sites_with(self.sites(), &addition);
        let ended = ended_with(self.has_ended(), &addition);
        self.sites = joined;
        self.has_ended = ended;
        self.drawing.commit(addition);
    }

    /// How many sites have joined, at most 256.
    pub fn sites(&self) -> u32
        ensures sites { result ≡ sites self.now.room.entries }
        ensures range { sites self.now.room.entries ≤ MAX_JOINS }
    {
        let _bound = self.drawing.limits().joins();
        self.sites
    }

    /// Has the record ended?
    pub fn has_ended(&self) -> bool
        ensures { result ≡ has_ended self.now.room.entries }
    {
        self.has_ended
    }

    /// The number of objects.
    pub fn count_objects(&self) -> u32
        ensures { result ≡ length (objects self.now.room.entries) }
    {
        self.drawing.count_objects()
    }

    /// The limits that the room was made with.
    pub fn limits(&self) -> Limits
        ensures { result ≡ self.now.room.limits }
    {
        self.drawing.limits()
    }

    /// The record.
    pub fn entries(&self) -> &[Arc<Entry>]
        ensures entries { map arc_value result.now ≡ self.now.room.entries }
        ensures legal { IsLegal self.now.room.limits self.now.room.entries }
    {
        self.drawing.entries()
    }

    /// The record. Consumes the room.
    pub fn into_entries(self) -> Vec<Arc<Entry>>
        ensures entries { map arc_value result.items ≡ self.room.entries }
        ensures legal { IsLegal self.room.limits self.room.entries }
    {
        let RoomState {
            drawing,
            sites: _,
            has_ended: _,
        } = self;
        drawing.into_entries()
    }
}

/// The number of sites with this entry.
fn sites_with(sites: u32, addition: &Addition) -> u32
    requires { sites ≤ MAX_JOINS }
    ensures { result ≡ sites + (if is_join addition.now.entry then 1 else 0) }
{
    if addition.is_join() { sites + 1 } else { sites }
}

/// Whether a record that has ended or not has ended with this entry.
fn ended_with(has_ended: bool, addition: &Addition) -> bool
    ensures { result ≡ (has_ended || is_end addition.now.entry) }
{
    has_ended || addition.is_end()
}

/// A refusal that looks into no room.
fn outside_refusal(refusal: Refusal) -> Reply
    ensures { result ≡ No 0 refusal }
{
    Reply::No { at: 0, refusal }
}
