//! A replica of a room.

ghost use Rattle.std.specs.Prelude.{◌≡◌, ◌≢◌, ◌==◌, not, ◌&&◌, length, map, nat_lt, true, None};
ghost use Rattle.std.specs.Prelude.{Some, IfErr, IfOk, OnOk, OnErr};
ghost use Rattle.std.specs.Arc.{arc_value};
ghost use Rattle.std.specs.List.{list_any};
ghost use Rattle.rules.specs.declared.history.Entry.TheVariants.{Join, Next, Operation};
ghost use Rattle.rules.specs.Operations.{name_of};
ghost use Rattle.rules.specs.Admission.{count_at_site, has_wrong_seq};
ghost use Rattle.rules.specs.Records.{has_ended, operations, objects};
ghost use Rattle.base_types.specs.Vectors.{is_vector};
ghost use Rattle.drawing.specs.Shown.{shown};
ghost use Rattle.late_join.specs.declared.fault.TakeFault.TheVariants.{NoMemory as WantOfMemory};
ghost use Rattle.late_join.specs.Taking.{has_joined, is_early, is_repeat, lacks_another};
ghost use Rattle.late_join.specs.Taking.{take_fault, IsTakeable};
ghost use Rattle.late_join.specs.Replica.{with_entries, with_taken};
ghost use Rattle.late_join.specs.steps.Steps.{empty_replica, arrival_fault};
ghost use Rattle.late_join.specs.steps.Feeding.{IsFed, StaysBy, Stops};

use crate::fault::{FeedFault, TakeFault};
use base_types::{NoMemory, OpName};
use causal::Past;
use drawing::Drawing;
use rules::{Entry, Limits, Op, Refusal, SharedOp};
use std::alloc::Global;
use std::marker::Model;
use std::sync::Arc;
use wire::Reply;
use wire_reader::read_reply;

/// The page that was fed: `count` entries from place `from` on, of a record with `at` entries.
/// Places count from 0.
#[derive(Clone, Copy, Debug, PartialEq, Eq)]
pub struct Fed {
    /// The place of its first entry.
    pub from: u32,
    /// The number of its entries.
    pub count: u32,
    /// The number of entries in the record.
    pub at: u32,
}

/// A copy of a room, which takes the entries of the room's record in any causal order.
pub struct Replica {
    sites: Vec<u32>,
    has_ended: bool,
    drawing: Drawing,
}

impl Drop for Replica {
    fn drop(self) {
        let Replica {
            sites: _,
            has_ended: _,
            drawing: _,
        } = self;
    }
}

impl Model for Replica {
    ghost use Rattle.late_join.specs.Replica.{ReplicaState};
    ghost use Rattle.late_join.specs.Kept.{IsReplica};

    ghost Value = { ReplicaState };

    ghost view = { λ s. record { limits = s.drawing.room.limits; taken = s.drawing.room.entries } };

    ghost invariant = { λ s. IsReplica
        s.drawing.room.limits s.drawing.room.entries s.sites.items s.has_ended };
}

/// Returns whether the site is in the list.
fn holds(sites: &[u32], site: u32) -> bool
    ensures { result ≡ list_any (λ joined. joined == site) sites.now }
{
    sites.iter().any(|joined| *joined == site)
}

/// Returns whether a pair of another site counts more operations than were taken.
fn has_fewer(past: &Past, site: u32, pairs: &[(u32, u32)]) -> bool
    ensures { let h = past.now.history in result ≡ list_any
        (λ pair. not (pair.0 == site) && nat_lt (count_at_site h pair.0) pair.1) pairs.now }
{
    pairs
        .iter()
        .any(|pair| pair.0 != site && past.count(pair.0) < pair.1)
}

impl Replica {
    /// A replica under these limits that has taken nothing.
    ///
    /// # Errors
    /// `NoMemory` if an allocation failed.
    pub fn new(alloc: Global, limits: Limits) -> Result<Replica, NoMemory>
        ensures { IfOk result (λ replica. replica ≡ empty_replica limits) }
    {
        let drawing = Drawing::new(alloc, limits)?;
        Ok(Replica {
            sites: Vec::new(alloc),
            has_ended: false,
            drawing,
        })
    }

    /// The number of entries that were taken.
    pub fn count_taken(&self) -> u32
        ensures count { result ≡ length self.now.taken }
        ensures takeable { IsTakeable self.now.limits self.now.taken }
    {
        self.drawing.len()
    }

    /// Returns whether the join of this site was taken.
    fn has_joined(&self, site: u32) -> bool
        ensures { result ≡ has_joined self.now.taken site }
    {
        holds(&self.sites, site)
    }

    /// Returns whether the end of the record was taken.
    pub fn has_ended(&self) -> bool
        ensures { result ≡ has_ended self.now.taken }
    {
        self.has_ended
    }

    /// Returns whether the operation counts an operation of another site that was not taken.
    fn lacks_another(&self, op: &Op) -> bool
        ensures { result ≡ lacks_another (operations self.now.taken) op.now }
    {
        has_fewer(self.drawing.past(), op.name.site(), op.seen.pairs())
    }

    /// Returns whether an operation of this name was taken.
    fn is_repeat(&self, op: &Op) -> bool
        ensures { result ≡ is_repeat self.now.taken (Operation op.now) }
    {
        op.name.seq() <= self.drawing.past().count(op.name.site())
    }

    /// Returns whether the operation's number is not the next one of its site.
    fn has_wrong_seq(&self, op: &Op) -> bool
        ensures { result ≡ has_wrong_seq (operations self.now.taken) op.now.name }
    {
        op.name.seq() - 1 != self.drawing.past().count(op.name.site())
    }

    /// Returns whether something that the operation depends on was not taken.
    fn is_early(&self, op: &Op) -> bool
        ensures { result ≡ is_early self.now.taken (Operation op.now) }
    {
        !self.has_joined(op.name.site()) || self.has_wrong_seq(op) || self.lacks_another(op)
    }

    /// Why an operation is not taken, whatever its body is; `None` if it may be.
    fn arrival_fault(&self, op: &Op) -> Option<TakeFault>
        ensures fault { result ≡ arrival_fault self.now.limits self.now.taken op.now }
        ensures vector { is_vector op.now.seen ≡ true }
    {
        // This reads the invariant of the vector into the proof.
        let _pairs = op.seen.pairs();
        if self.is_repeat(op) {
            return Some(TakeFault::Repeat);
        }
        if self.is_early(op) {
            return Some(TakeFault::Early);
        }
        if self.drawing.is_full() {
            return Some(TakeFault::Refused(Refusal::RecordFull));
        }
        match self.drawing.past().admit(op.name, &op.seen) {
            Ok(()) => None,
            Err(fault) => Some(TakeFault::Refused(Refusal::from(fault))),
        }
    }
}

impl Replica {
    /// Adds a join that may be taken. On `Err` nothing has changed.
    fn add_join(&mut self, alloc: Global, site: u32) -> Result<(), NoMemory>
        requires { take_fault self.old.limits self.old.taken (Join site) ≡ None }
        ensures ok { OnOk result (self.new ≡ with_taken self.old (Join site)) }
        ensures err { OnErr result (self.new ≡ self.old) }
    {
        self.sites.reserve(1)?;
        let addition = self.drawing.plan_join(alloc, site)?;
        self.sites.push_reserved(site);
        self.drawing.commit(addition);
        Ok(())
    }

    /// Takes a join.
    #[tactic(auto, unfolding(crate::specs::Taking::take_fault))]
    fn take_join(&mut self, alloc: Global, site: u32) -> Result<(), TakeFault>
        ensures accepted { OnOk result
            (take_fault self.old.limits self.old.taken (Join site) ≡ None) }
        ensures fault { IfErr result (λ fault. fault ≢ WantOfMemory
            → take_fault self.old.limits self.old.taken (Join site) ≡ Some fault) }
        ensures ok { OnOk result (self.new ≡ with_taken self.old (Join site)) }
        ensures err { OnErr result (self.new ≡ self.old) }
    {
        if self.has_joined(site) {
            return Err(TakeFault::Repeat);
        }
        if site == 0 || site > self.drawing.limits().joins() {
            return Err(TakeFault::Refused(Refusal::RoomFull));
        }
        if self.drawing.is_full() {
            return Err(TakeFault::Refused(Refusal::RecordFull));
        }
        self.add_join(alloc, site)?;
        Ok(())
    }

    /// Adds the end of the record, which may be taken. On `Err` nothing has changed.
    fn add_end(&mut self, alloc: Global, count: u32) -> Result<(), NoMemory>
        requires { take_fault self.old.limits self.old.taken (Next count) ≡ None }
        ensures ok { OnOk result (self.new ≡ with_taken self.old (Next count)) }
        ensures err { OnErr result (self.new ≡ self.old) }
    {
        let addition = self.drawing.plan_end(alloc, count)?;
        self.has_ended = true;
        self.drawing.commit(addition);
        Ok(())
    }

    /// Takes the end of the record.
    #[tactic(auto, unfolding(crate::specs::Taking::take_fault))]
    fn take_end(&mut self, alloc: Global, count: u32) -> Result<(), TakeFault>
        ensures accepted { OnOk result
            (take_fault self.old.limits self.old.taken (Next count) ≡ None) }
        ensures fault { IfErr result (λ fault. fault ≢ WantOfMemory
            → take_fault self.old.limits self.old.taken (Next count) ≡ Some fault) }
        ensures ok { OnOk result (self.new ≡ with_taken self.old (Next count)) }
        ensures err { OnErr result (self.new ≡ self.old) }
    {
        if self.has_ended() {
            return Err(TakeFault::Repeat);
        }
        if self.drawing.is_full() {
            return Err(TakeFault::Refused(Refusal::RecordFull));
        }
        self.add_end(alloc, count)?;
        Ok(())
    }

    /// Takes an operation.
    fn take_operation(&mut self, alloc: Global, op: Op) -> Result<(), TakeFault>
        ensures accepted { OnOk result
            (take_fault self.old.limits self.old.taken (Operation op) ≡ None) }
        ensures fault { IfErr result (λ fault. fault ≢ WantOfMemory
            → take_fault self.old.limits self.old.taken (Operation op) ≡ Some fault) }
        ensures ok { OnOk result (self.new ≡ with_taken self.old (Operation op)) }
        ensures err { OnErr result (self.new ≡ self.old) }
    {
        if let Some(fault) = self.arrival_fault(&op) {
            drop(op);
            return Err(fault);
        }
        let addition = self.drawing.plan(alloc, SharedOp::new(alloc, op)?)?;
        self.drawing.commit(addition);
        Ok(())
    }

    /// Takes an entry of the record, in any causal order. Its cost is that of adding the entry to a
    /// room.
    ///
    /// # Errors
    /// The first of these that applies; the replica is unchanged.
    /// `Repeat` if the entry was taken before.
    /// `Early` if something that it depends on was not taken.
    /// `Refused` if a room with these entries refuses it. A join whose site is 0 or above the limit
    /// of joins is refused as room-full.
    /// `NoMemory` if an allocation failed; this may replace any of the others.
    pub fn take(&mut self, alloc: Global, entry: Entry) -> Result<(), TakeFault>
        ensures accepted { OnOk result (take_fault self.old.limits self.old.taken entry ≡ None) }
        ensures fault { IfErr result (λ fault. fault ≢ WantOfMemory
            → take_fault self.old.limits self.old.taken entry ≡ Some fault) }
        ensures ok { OnOk result (self.new ≡ with_taken self.old entry) }
        ensures err { OnErr result (self.new ≡ self.old) }
    {
        match entry {
            Entry::Join(site) => self.take_join(alloc, site),
            Entry::Operation(op) => self.take_operation(alloc, op),
            Entry::Next(count) => self.take_end(alloc, count),
        }
    }
}

impl Replica {
    /// The names of the objects, in the order in which their creations were taken. Linear in their
    /// number.
    ///
    /// # Errors
    /// `NoMemory` if an allocation failed.
    pub fn objects(&self, alloc: Global) -> Result<Vec<OpName>, NoMemory>
        ensures { IfOk result (λ names. names.items ≡ map name_of (objects self.now.taken)) }
    {
        self.drawing.names(alloc)
    }

    /// The versions of an object, as a room with as many entries shows them. The reply is the
    /// refusal `NoSuchObject` if no object of this name was created.
    ///
    /// # Errors
    /// `NoMemory` if an allocation failed.
    pub fn show(&self, alloc: Global, object: OpName) -> Result<Reply, NoMemory>
        ensures { IfOk result (λ reply. reply ≡ shown self.now.taken object) }
    {
        self.drawing.show(alloc, object)
    }
}

impl Replica {
    /// Takes these entries in order, up to the first that is not taken.
    fn take_each(&mut self, alloc: Global, entries: &[Arc<Entry>]) -> Result<(), FeedFault>
        ensures ok { OnOk result (self.new ≡ with_entries self.old (map arc_value entries.now)) }
        ensures err { IfErr result
            (λ fault. Stops self.old self.new (map arc_value entries.now) fault) }
    {
        let before = self.count_taken();
        for entry in entries {
            if let Err(fault) = self.take_copy(alloc, entry) {
                return Err(FeedFault::Take {
                    place: self.count_taken() - before,
                    fault,
                });
            }
        }
        Ok(())
    }

    /// Takes a copy of the entry.
    fn take_copy(&mut self, alloc: Global, entry: &Entry) -> Result<(), TakeFault>
        ensures accepted { OnOk result
            (take_fault self.old.limits self.old.taken entry.now ≡ None) }
        ensures fault { IfErr result (λ fault. fault ≢ WantOfMemory
            → take_fault self.old.limits self.old.taken entry.now ≡ Some fault) }
        ensures ok { OnOk result (self.new ≡ with_taken self.old entry.now) }
        ensures err { OnErr result (self.new ≡ self.old) }
    {
        let entry = entry.copy(alloc)?;
        self.take(alloc, entry)
    }

    /// Takes the entries of a page in order. `text` is the text of an `entries` reply.
    ///
    /// # Errors
    /// `NotAPage` if the bytes are no such text; the replica is unchanged.
    /// `Take` if an entry was not taken. The entries before its place were taken, and no others.
    /// `NoMemory` if an allocation failed while the page was read; the replica is unchanged.
    pub fn feed_page(&mut self, alloc: Global, text: &[u8]) -> Result<Fed, FeedFault>
        ensures ok { IfOk result (IsFed self.old self.new text.now) }
        ensures err { IfErr result (StaysBy self.old self.new text.now) }
    {
        match read_reply(alloc, text)? {
            Reply::Entries { at, from, entries } => {
                let before = self.count_taken();
                self.take_each(alloc, entries.as_slice())?;
                let count = self.count_taken() - before;
                Ok(Fed { from, count, at })
            }
            other => {
                drop(other);
                Err(FeedFault::NotAPage)
            }
        }
    }
}
