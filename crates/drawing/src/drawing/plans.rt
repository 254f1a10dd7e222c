//! What is planned to be added: joins, ends, creations and changes.

ghost use Rattle.std.specs.Prelude.{◌≡◌, ◌<◌, [], false, length, true, IfErr, IfOk, None, OnOk, Some};
ghost use Rattle.base_types.specs.Names.{is_site};
ghost use Rattle.rules.specs.declared.history.Entry.TheVariants.{Join, Next};
ghost use Rattle.rules.specs.Records.{operation_in};
ghost use Rattle.rules.specs.Bodies.{is_change_body};
ghost use Rattle.rules.specs.Operations.{object_of};
ghost use Rattle.base_types.specs.Vectors.{counts};
ghost use Rattle.shape.specs.steps.Planned.{IsPlanned};
ghost use Rattle.drawing.specs.steps.Additions.{HasShape, IsNext, IsPlanFor, IsReady, body_refusal};
ghost use Rattle.drawing.specs.Shown.{ids_with};
ghost use Rattle.drawing.specs.steps.Faults.{IsAddRefusal};
ghost use Rattle.drawing.specs.steps.State.{spare_of};

use super::Drawing;
use crate::addition::{Addition, Part};
use crate::fault::AddFault;
use base_types::{NoMemory, OpName};
use rules::{Entry, Limits, Refusal, SharedOp};
use shape::{PlannedChange, Shape};
use std::alloc::Global;
use std::sync::Arc;

impl Drawing {
    /// Prepares a join. The record must not be full. The drawing stays as it is.
    ///
    /// # Errors
    ///
    /// `NoMemory` if an allocation failed.
    pub fn plan_join(&mut self, alloc: Global, site: u32) -> Result<Addition, NoMemory>
        requires { length self.old.room.entries < self.old.room.limits.entries }
        ensures entry { IfOk result (λ added. added.entry ≡ Join site) }
        ensures ready { IfOk result (IsReady self.new) }
        ensures room { self.new.room ≡ self.old.room }
    {
        self.plan_alone(alloc, Entry::Join(site))
    }

    /// Prepares the end of the record, which goes on with so many entries in another. The record
    /// must not be full. The drawing stays as it is.
    ///
    /// # Errors
    ///
    /// `NoMemory` if an allocation failed.
    pub fn plan_end(&mut self, alloc: Global, count: u32) -> Result<Addition, NoMemory>
        requires { length self.old.room.entries < self.old.room.limits.entries }
        ensures entry { IfOk result (λ added. added.entry ≡ Next count) }
        ensures ready { IfOk result (IsReady self.new) }
        ensures room { self.new.room ≡ self.old.room }
    {
        self.plan_alone(alloc, Entry::Next(count))
    }

    /// Plans to add an entry that is no operation.
    fn plan_alone(&mut self, alloc: Global, entry: Entry) -> Result<Addition, NoMemory>
        requires alone { operation_in entry ≡ None }
        requires short { length self.old.room.entries < self.old.room.limits.entries }
        ensures entry { IfOk result (λ added. added.entry ≡ entry) }
        ensures ready { IfOk result (IsReady self.new) }
        ensures room { self.new.room ≡ self.old.room }
    {
        let entry = Arc::new(alloc, entry)?;
        self.record.reserve_one()?;
        Ok(Addition {
            entry,
            part: Part::Alone,
        })
    }

    /// Prepares an operation that may come next in causal order. The drawing stays as it is.
    ///
    /// # Errors
    ///
    /// - `Refused` with the first refusal that applies. For a creation it is `TooManyObjects`. For
    ///   a change it is `NoSuchObject`, `NoSuchVersion`, `Gone`, `ObjectFull`, `TooManyKeys` or
    ///   `TooManyVersions`, in this order.
    /// - `NoMemory` if an allocation failed.
    pub fn plan(&mut self, alloc: Global, op: SharedOp) -> Result<Addition, AddFault>
        requires { IsNext self.old.room op }
        ensures planned { IfOk result (IsPlanFor self.old.room op self.new) }
        ensures allowed { OnOk result (body_refusal self.old.room op ≡ None) }
        ensures refusal { IfErr result (IsAddRefusal (body_refusal self.old.room op)) }
        ensures room { self.new.room ≡ self.old.room }
    {
        if op.body.is_change() {
            self.plan_change(alloc, op)
        } else {
            self.plan_creation(alloc, op)
        }
    }

    /// Plans to add a creation that may come next.
    fn plan_creation(&mut self, alloc: Global, op: SharedOp) -> Result<Addition, AddFault>
        requires next { IsNext self.old.room op }
        requires creation { is_change_body op.body ≡ false }
        ensures planned { IfOk result (IsPlanFor self.old.room op self.new) }
        ensures allowed { OnOk result (body_refusal self.old.room op ≡ None) }
        ensures refusal { IfErr result (IsAddRefusal (body_refusal self.old.room op)) }
        ensures room { self.new.room ≡ self.old.room }
    {
        if self.count_objects() >= self.limits.objects() {
            return Err(AddFault::Refused(Refusal::TooManyObjects));
        }
        Ok(self.plan_object(alloc, op)?)
    }

    /// Plans to add a creation that is allowed.
    fn plan_object(&mut self, alloc: Global, op: SharedOp) -> Result<Addition, NoMemory>
        requires next { IsNext self.old.room op }
        requires creation { is_change_body op.body ≡ false }
        requires allowed { body_refusal self.old.room op ≡ None }
        ensures planned { IfOk result (IsPlanFor self.old.room op self.new) }
        ensures room { self.new.room ≡ self.old.room }
    {
        self.reserve_creation(op.name.site())?;
        self.creation_of(alloc, op)
    }

    /// The addition of a creation that is allowed and for which there is memory.
    fn creation_of(&self, alloc: Global, op: SharedOp) -> Result<Addition, NoMemory>
        requires next { IsNext self.now.room op }
        requires creation { is_change_body op.body ≡ false }
        requires allowed { body_refusal self.now.room op ≡ None }
        // There is memory for it:
        requires entry { 0 < self.now.reserve.entries }
        requires past { 0 < spare_of self.now op.name.0 }
        requires object { 0 < self.now.reserve.objects }
        // The addition:
        ensures { IfOk result (IsPlanFor self.now.room op self.now) }
    {
        let entry = op.entry()?;
        let shape = new_shape(alloc, &op, self.limits)?;
        Ok(Addition {
            entry,
            part: Part::Creation(op, shape),
        })
    }

    /// Plans to add a change that may come next.
    fn plan_change(&mut self, alloc: Global, op: SharedOp) -> Result<Addition, AddFault>
        requires next { IsNext self.old.room op }
        requires change { is_change_body op.body ≡ true }
        ensures planned { IfOk result (IsPlanFor self.old.room op self.new) }
        ensures allowed { OnOk result (body_refusal self.old.room op ≡ None) }
        ensures refusal { IfErr result (IsAddRefusal (body_refusal self.old.room op)) }
        ensures room { self.new.room ≡ self.old.room }
    {
        if !op.seen.has(op.object()) {
            return Err(AddFault::Refused(Refusal::NoSuchObject));
        }
        self.reserve_operation(op.name.site())?;
        let entry = op.entry()?;
        let (place, planned) = self.plan_at_object(alloc, op.share()?)?;
        Ok(Addition {
            entry,
            part: Part::Change(place, op, planned),
        })
    }

    /// Takes memory for one more operation of this site.
    fn reserve_operation(&mut self, site: u32) -> Result<(), NoMemory>
        ensures entry { OnOk result (0 < self.new.reserve.entries) }
        ensures past { OnOk result (is_site site ≡ true → 0 < spare_of self.new site) }
        ensures shapes { self.new.reserve.shapes ≡ self.old.reserve.shapes }
        ensures room { self.new.room ≡ self.old.room }
    {
        self.record.reserve_one()?;
        self.past.reserve(site)?;
        Ok(())
    }

    /// Takes memory for one more creation of this site.
    fn reserve_creation(&mut self, site: u32) -> Result<(), NoMemory>
        ensures entry { OnOk result (0 < self.new.reserve.entries) }
        ensures past { OnOk result (is_site site ≡ true → 0 < spare_of self.new site) }
        ensures object { OnOk result (0 < self.new.reserve.objects) }
        ensures room { self.new.room ≡ self.old.room }
    {
        self.reserve_operation(site)?;
        self.objects.reserve(1)?;
        Ok(())
    }

    /// Plans a change that counts the name of its object, on that object, and gives the object's
    /// place.
    fn plan_at_object(
        &mut self,
        alloc: Global,
        op: SharedOp,
    ) -> Result<(usize, Box<PlannedChange>), AddFault>
        requires next { IsNext self.old.room op }
        requires change { is_change_body op.body ≡ true }
        requires counted { counts op.seen (object_of op) ≡ true }
        // The plan for the object as it then is.
        ensures shape { IfOk result
            (λ p. HasShape self.new.reserve.shapes (object_of op) p.0 (λ d. IsPlanned d p.1.value)) }
        ensures added { IfOk result (λ p. p.1.value.addition.op ≡ op) }
        ensures ids { IfOk result (λ p. p.1.value.ids ≡ ids_with self.old.room op) }
        // Whether there is one.
        ensures allowed { OnOk result (body_refusal self.old.room op ≡ None) }
        ensures refusal { IfErr result (IsAddRefusal (body_refusal self.old.room op)) }
        // The memory for the operation stays.
        ensures entries { self.new.reserve.entries ≡ self.old.reserve.entries }
        ensures operations { self.new.reserve.operations ≡ self.old.reserve.operations }
        ensures room { self.new.room ≡ self.old.room }
    {
        let Some(place) = self.objects.get_index_of(&op.object()) else {
            return Err(AddFault::Refused(Refusal::NoSuchObject));
        };
        let Some(shape) = self.objects.get_index_mut(place) else {
            unreachable!()
        };
        Ok((place, shape.plan_change(alloc, op)?))
    }
}

/// The object of a creation, in memory of its own.
fn new_shape(alloc: Global, op: &SharedOp, limits: Limits) -> Result<Box<Shape>, NoMemory>
    requires { is_change_body op.now.body ≡ false }
    ensures { IfOk result (λ shape.
        shape.value.object ≡ record { limits = limits; creation = op.now; changes = [] }) }
{
    let shape = Shape::create(alloc, op.share()?, limits)?;
    Ok(Box::new(alloc, shape)?)
}
