//! What a room draws.

ghost use Rattle.std.specs.Prelude.{◌≡◌, ◌↔◌, ◌++◌, ◌∷◌, [], filter_map, IfOk, IsTrue, OnOk};
ghost use Rattle.drawing.specs.Shown.{shown};
ghost use Rattle.renewal.specs.Drawn.{drawn, drawn_if, live_versions, picture_in};

use crate::picture::{Picture, are_same};
use base_types::{Kind, NoMemory, OpName};
use room_core::RoomState;
use rules::{AttrList, Shown, Version};
use std::alloc::Global;
use wire::Reply;

/// Adds the attributes of a version, unless it is gone.
fn add_live(alloc: Global, list: &mut Vec<AttrList>, version: &Version) -> Result<(), NoMemory>
    ensures { OnOk result (list.new.items ≡ list.old.items ++ live_versions (version.now ∷ [])) }
{
    if let Shown::Attrs(attrs) = &version.shown {
        list.push(attrs.copy(alloc)?)?;
    }
    Ok(())
}

/// The attributes of the versions that are not gone, in their order.
#[tactic(auto, using(crate::proofs::More::live_more))]
fn live_versions(alloc: Global, versions: &[Version]) -> Result<Vec<AttrList>, NoMemory>
    ensures { IfOk result (λ list. list.items ≡ live_versions versions.now) }
{
    let mut list = Vec::new(alloc);
    for version in versions {
        add_live(alloc, &mut list, version)?;
    }
    Ok(list)
}

/// An object of this kind with these versions, if there are any.
fn picture_of(
    alloc: Global,
    kind: &Kind,
    versions: Vec<AttrList>,
) -> Result<Option<Picture>, NoMemory>
    ensures { IfOk result (λ picture. picture ≡ drawn_if kind.now versions.items) }
{
    if versions.is_empty() {
        return Ok(None);
    }
    let kind = kind.copy(alloc)?;
    Ok(Some(Picture::new(kind, versions)))
}

/// What the answer to a show draws: nothing if no version is left that is not gone.
fn picture_in(alloc: Global, reply: &Reply) -> Result<Option<Picture>, NoMemory>
    ensures { IfOk result (λ picture. picture ≡ picture_in reply.now) }
{
    match reply {
        Reply::Versions { kind, versions, .. } => {
            picture_of(alloc, kind, live_versions(alloc, versions.as_slice())?)
        }
        _ => Ok(None),
    }
}

/// Adds what the answer to a show draws.
fn add_picture(alloc: Global, list: &mut Vec<Picture>, reply: &Reply) -> Result<(), NoMemory>
    ensures { OnOk result
        (list.new.items ≡ list.old.items ++ filter_map picture_in (reply.now ∷ [])) }
{
    if let Some(picture) = picture_in(alloc, reply)? {
        list.push(picture)?;
    }
    Ok(())
}

/// Adds what a room draws of the object of this name.
fn add_drawn(
    alloc: Global,
    list: &mut Vec<Picture>,
    room: &RoomState,
    name: OpName,
) -> Result<(), NoMemory>
    ensures { OnOk result (list.new.items ≡ list.old.items
        ++ filter_map (λ name. picture_in (shown room.now.room.entries name)) (name ∷ [])) }
{
    let reply = room.show(alloc, name)?;
    add_picture(alloc, list, &reply)
}

/// What a room draws of the objects of these names.
#[tactic(auto, using(crate::proofs::More::filter_map_more))]
fn drawn_of(alloc: Global, room: &RoomState, names: &[OpName]) -> Result<Vec<Picture>, NoMemory>
    ensures { IfOk result (λ list. list.items
        ≡ filter_map (λ name. picture_in (shown room.now.room.entries name)) names.now) }
{
    let mut list = Vec::new(alloc);
    for name in names {
        add_drawn(alloc, &mut list, room, *name)?;
    }
    Ok(list)
}

/// What a room draws: each object with a version that is not gone, in order of creation. Its cost
/// is that of showing each object once.
///
/// # Errors
/// `NoMemory` if an allocation failed.
pub fn drawing_of(alloc: Global, room: &RoomState) -> Result<Vec<Picture>, NoMemory>
    ensures { IfOk result (λ list. list.items ≡ drawn room.now.room.entries) }
{
    let names = room.names(alloc)?;
    drawn_of(alloc, room, &names)
}

/// Returns whether the room draws exactly this. Its cost is that of showing each object once.
///
/// # Errors
/// `NoMemory` if an allocation failed.
pub fn draws(alloc: Global, room: &RoomState, pictures: &[Picture]) -> Result<bool, NoMemory>
    ensures { IfOk result (λ same. IsTrue same ↔ (drawn room.now.room.entries ≡ pictures.now)) }
{
    let own = drawing_of(alloc, room)?;
    Ok(are_same(&own, pictures))
}
