//! The entries of a room with what they draw.

ghost use Rattle.std.specs.Prelude.{◌≡◌, ◌<◌, ◌≤◌, ◌-◌, ◌++◌, ◌∷◌, [], None, Some, IfOk, drop, length, map, nat_le, slice_index, take};
ghost use Rattle.std.specs.Arc.{arc_value};
ghost use Rattle.std.specs.Map.{lookup};
ghost use Rattle.indexmap.specs.IndexMap.{spare};
ghost use Rattle.base_types.specs.Names.{same_name};
ghost use Rattle.rules.specs.declared.history.Entry.TheVariants.{Join};
ghost use Rattle.rules.specs.declared.limits.TheConstants.Limits.{MAX_ENTRIES};
ghost use Rattle.rules.specs.steps.Histories.{causal_refusal};
ghost use Rattle.rules.specs.Operations.{name_of};
ghost use Rattle.rules.specs.Records.{objects, operations};
ghost use Rattle.drawing.specs.steps.Additions.{CanAdd, CanCreate, CanStandAlone, CanChange, IsReady};
ghost use Rattle.drawing.specs.Room.{all_objects, empty_room, with_entry};
ghost use Rattle.drawing.specs.Shown.{shown};

mod plans;

use crate::addition::{Addition, Part};
use crate::pages::objects_page;
use base_types::{NoMemory, OpName};
use causal::Past;
use indexmap::IndexMap;
use room_record::Record;
use rules::{Entry, Limits, Refusal, SharedOp};
use shape::{PlannedChange, Shape};
use std::alloc::Global;
use std::marker::Model;
use std::sync::Arc;
use wire::{EntryList, ObjectList, Reply, VersionList};

/// The entries of a room so far, and what they draw: the operations, and the objects in order of
/// creation. The owner decides which entry comes next.
#[derive(Drop)]
pub struct Drawing {
    limits: Limits,
    record: Record,
    past: Past,
    objects: IndexMap<OpName, Shape>,
}

impl Model for Drawing {
    ghost use Rattle.indexmap.specs.IndexMap.{spare};
    ghost use Rattle.drawing.specs.Room.{room_of};
    ghost use Rattle.drawing.specs.steps.State.{DrawingState};
    ghost use Rattle.drawing.specs.steps.Drawing.{IsReplay};

    ghost Value = { DrawingState };

    ghost view = { λ d. record {
      room = record { limits = d.limits; entries = d.record.entries };
      reserve = record {
        entries = d.record.spare;
        operations = d.past.reserve;
        objects = spare d.objects;
        shapes = d.objects.entries;
      };
    } };

    ghost invariant = { λ d.
        IsReplay (room_of d.limits d.record.entries) d.objects.entries d.past.history };
}

impl Drawing {
    /// An empty drawing under these limits.
    ///
    /// # Errors
    ///
    /// `NoMemory` if an allocation failed.
    pub fn new(alloc: Global, limits: Limits) -> Result<Drawing, NoMemory>
        ensures { IfOk result (λ drawing. drawing.room ≡ empty_room limits) }
    {
        let past = Past::new(alloc)?;
        Ok(Drawing {
            limits,
            record: Record::new(alloc),
            past,
            objects: IndexMap::new(alloc),
        })
    }

    /// The limits of the room.
    pub fn limits(&self) -> Limits
        ensures { result ≡ self.now.room.limits }
    {
        self.limits
    }

    /// The entries, in the order in which they were added.
    pub fn entries(&self) -> &[Arc<Entry>]
        ensures { map arc_value result.now ≡ self.now.room.entries }
    {
        self.record.as_slice()
    }

    /// The entries, of a drawing that is given up.
    pub fn into_entries(self) -> Vec<Arc<Entry>>
        ensures { map arc_value result.items ≡ self.room.entries }
    {
        self.record.into_vec()
    }

    /// The number of entries.
    pub fn len(&self) -> u32
        ensures len { result ≡ length self.now.room.entries }
        ensures range { length self.now.room.entries ≤ self.now.room.limits.entries }
    {
        let _bound = self.limits.entries();
        self.record.len() as u32
    }

    /// Does the record have its maximum number of entries?
    pub fn is_full(&self) -> bool
        ensures full { result ≡ nat_le self.now.room.limits.entries (length self.now.room.entries) }
        ensures range { self.now.room.limits.entries ≤ MAX_ENTRIES }
    {
        self.len() >= self.limits.entries()
    }

    /// The operations so far.
    pub fn past(&self) -> &Past
        ensures { result.now.history ≡ operations self.now.room.entries }
    {
        &self.past
    }

    /// The number of objects.
    pub fn count_objects(&self) -> u32
        ensures { result ≡ length (objects self.now.room.entries) }
    {
        let _bound = self.limits.objects();
        self.objects.len() as u32
    }

    /// The names of the objects, in order of creation. Linear in their number.
    ///
    /// # Errors
    ///
    /// `NoMemory` if an allocation failed.
    pub fn names(&self, alloc: Global) -> Result<Vec<OpName>, NoMemory>
        ensures { IfOk result (λ names. names.items ≡ map name_of (objects self.now.room.entries)) }
    {
        let count = self.objects.len();
        let shapes = self.objects.as_slice();
        let mut names = Vec::with_capacity(alloc, count)?;
        for place in 0..count {
            let Some((name, _)) = shapes.get_index(place) else {
                unreachable!()
            };
            names.push(*name)?;
        }
        Ok(names)
    }

    /// A page of the objects with their kinds, from a place on. Linear in the page.
    ///
    /// # Errors
    ///
    /// `NoMemory` if an allocation failed.
    pub fn page(&self, alloc: Global, from: u32) -> Result<ObjectList, NoMemory>
        requires { from ≤ length (objects self.now.room.entries) }
        ensures { IfOk result (λ list. list
            ≡ take self.now.room.limits.page (drop from (all_objects self.now.room.entries))) }
    {
        let page = self.limits.page() as usize;
        objects_page(alloc, &self.objects, from as usize, page)
    }

    /// A page of the entries, from a place on. Linear in the page.
    ///
    /// # Errors
    ///
    /// `NoMemory` if an allocation failed.
    pub fn entries_page(&mut self, alloc: Global, from: u32) -> Result<EntryList, NoMemory>
        requires { from ≤ length self.old.room.entries }
        ensures page { IfOk result (λ list. list
            ≡ take self.old.room.limits.page (drop from self.old.room.entries)) }
        ensures room { self.new ≡ self.old }
    {
        let page = self.limits.page() as usize;
        self.record.page(alloc, from as usize, page)
    }

    /// The versions of an object, or the refusal `NoSuchObject` if no object has this name.
    ///
    /// # Errors
    ///
    /// `NoMemory` if an allocation failed.
    pub fn show(&self, alloc: Global, object: OpName) -> Result<Reply, NoMemory>
        ensures { IfOk result (λ reply. reply ≡ shown self.now.room.entries object) }
    {
        let Some(shape) = self.objects.get(&object) else {
            return Ok(Reply::No {
                at: self.len(),
                refusal: Refusal::NoSuchObject,
            });
        };
        Ok(Reply::Versions {
            at: self.len(),
            object,
            kind: shape.kind().copy(alloc)?,
            versions: VersionList::from_vec(shape.show(alloc)?),
        })
    }
}

impl Drawing {
    /// Adds what was planned for the drawing as it is now, without an allocation.
    pub fn commit(&mut self, addition: Addition)
        requires { IsReady self.old addition }
        ensures { self.new.room ≡ with_entry self.old.room (Some addition.entry) }
    {
        let Addition { entry, part } = addition;
        match part {
            Part::Alone => self.add_alone(entry),
            Part::Creation(op, shape) => {
                self.add_creation(entry, op, Box::into_inner(shape));
            }
            Part::Change(place, op, planned) => {
                self.add_change(entry, place, op, Box::into_inner(planned));
            }
        }
    }

    /// Adds an entry that is no operation.
    fn add_alone(&mut self, entry: Arc<Entry>)
        requires { CanStandAlone self.old (arc_value entry) }
        ensures { self.new.room ≡ with_entry self.old.room (Some (arc_value entry)) }
    {
        self.record.push_reserved(entry);
    }

    /// Adds a creation and its object.
    fn add_creation(&mut self, entry: Arc<Entry>, op: SharedOp, shape: Shape)
        requires operation { CanAdd self.old (arc_value entry) op }
        requires creation { CanCreate self.old op shape }
        ensures { self.new.room ≡ with_entry self.old.room (Some (arc_value entry)) }
    {
        let name = op.name;
        self.record.push_reserved(entry);
        add_reserved(&mut self.past, op);
        insert_reserved(&mut self.objects, name, shape);
    }

    /// Adds a change, and changes its object, which stands at this place, as planned.
    fn add_change(&mut self, entry: Arc<Entry>, place: usize, op: SharedOp, planned: PlannedChange)
        requires operation { CanAdd self.old (arc_value entry) op }
        requires change { CanChange self.old place op planned }
        ensures { self.new.room ≡ with_entry self.old.room (Some (arc_value entry)) }
    {
        self.record.push_reserved(entry);
        add_reserved(&mut self.past, op);
        match self.objects.get_index_mut(place) {
            Some(shape) => shape.commit(planned),
            None => unreachable!(),
        }
    }
}

/// Adds an operation where there is memory for it.
fn add_reserved(past: &mut Past, op: SharedOp)
    requires admitted { causal_refusal past.old.history op.name op.seen ≡ None }
    requires memory { 0 < slice_index past.old.reserve (op.name.0 - 1) }
    ensures { past.new.history ≡ past.old.history ++ op ∷ [] }
{
    match past.add(op) {
        Ok(()) => {}
        Err(_) => unreachable!(),
    }
}

/// Adds an object under a new name where there is memory for it.
fn insert_reserved(objects: &mut IndexMap<OpName, Shape>, name: OpName, shape: Shape)
    requires absent { lookup (same_name name) objects.old.entries ≡ None }
    requires memory { 0 < spare objects.old }
    ensures { objects.new.entries ≡ objects.old.entries ++ (name, shape) ∷ [] }
{
    match objects.insert(name, shape) {
        Ok(None) => {}
        _ => unreachable!(),
    }
}
