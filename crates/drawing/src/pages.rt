//! Pages of a drawing's objects.

ghost use Rattle.std.specs.Prelude.{◌≡◌, ◌≤◌, ◌++◌, ◌∷◌, [], IfOk, OnOk, drop, length, take};
ghost use Rattle.rules.specs.Bodies.{kind_of_body};
ghost use Rattle.drawing.specs.steps.State.{kinds_of};

use base_types::{Kind, NoMemory, OpName};
use indexmap::IndexMap;
use shape::Shape;
use std::alloc::Global;
use wire::ObjectList;

/// A page of the objects with their kinds from a place on. Linear in the page.
pub(crate) fn objects_page(
    alloc: Global,
    objects: &IndexMap<OpName, Shape>,
    from: usize,
    page: usize,
) -> Result<ObjectList, NoMemory>
    requires { from ≤ length objects.now.entries }
    ensures { IfOk result (λ list. list ≡ take page (drop from (kinds_of objects.now.entries))) }
{
    let (_, rest) = objects.as_slice().split_at(from);
    let count = page.min(rest.len());
    let mut listed = Vec::with_capacity(alloc, count)?;
    for place in 0..count {
        let Some((name, shape)) = rest.get_index(place) else {
            unreachable!()
        };
        push_kind(alloc, &mut listed, *name, shape)?;
    }
    Ok(ObjectList::from_vec(listed))
}

/// Appends the name of an object with its kind.
fn push_kind(
    alloc: Global,
    listed: &mut Vec<(OpName, Kind)>,
    name: OpName,
    shape: &Shape,
) -> Result<(), NoMemory>
    ensures { let kind = kind_of_body shape.now.object.creation.body
        in OnOk result (listed.new.items ≡ listed.old.items ++ (name, kind) ∷ []) }
{
    let kind = shape.kind().copy(alloc)?;
    listed.push((name, kind))?;
    Ok(())
}
