//! Closing rooms, and their records.

ghost use Rattle.std.specs.Prelude.{◌≡◌, ◌≤◌, ◌++◌, ◌∷◌, [], All, IfOk, List, OnOk, length, map};
ghost use Rattle.std.specs.Prelude.{sum_by};
ghost use Rattle.std.specs.Arc.{arc_value};
ghost use Rattle.base_types.specs.Texts.{Bytes};
ghost use Rattle.indexmap.specs.IndexMap.{keys};
ghost use Rattle.room_lock.specs.Closing.{IsClosed};
ghost use Rattle.room_lock.specs.steps.Closing.{HasItsEntries, added_of};

use crate::fault::CloseFault;
use crate::others::Others;
use crate::part::Part;
use crate::slot::{Slot, Stage};
use base_types::{NoMemory, RoomName};
use crossbeam_utils::CachePadded;
use indexmap::IndexMap;
use openings::{Opening, RoomHistories};
use rules::Entry;
use std::alloc::Global;
use std::sync::{Arc, Mutex};

/// The record of a closed room, and the parts of all its sites in order.
#[derive(Drop)]
pub struct RoomRecord<P: RoomHistories> {
    /// The name of the room.
    pub room: RoomName,
    /// The entries of the record, in order.
    pub entries: Vec<Arc<Entry>>,
    /// The parts of the sites, from site 1 on.
    pub parts: Vec<Part<P>>,
}

/// The number of entries that these sites added together. Each site has seen at least as many of
/// its own.
pub(crate) fn added_together<P: RoomHistories>(parts: &[Part<P>]) -> u128
    ensures sum { result ≡ sum_by added_of parts.now }
    ensures own { All HasItsEntries parts.now }
{
    let mut added: u128 = 0;
    for part in parts {
        added += u128::from(part.count_added());
    }
    added
}

/// The records of the rooms, in order.
pub(crate) fn close_all<P: RoomHistories>(
    alloc: Global,
    rooms: IndexMap<RoomName, CachePadded<Slot<P>>>,
) -> Result<Vec<RoomRecord<P>>, CloseFault>
    ensures names { IfOk result (λ records. map (λ one. one.room) records.items ≡ keys rooms) }
    ensures closed { IfOk result (λ records. All (λ one. IsClosed P.limits
        (map arc_value one.entries.items) one.parts.items) records.items) }
{
    let mut records = Vec::new(alloc);
    for (name, room) in rooms {
        let record = close_stage(alloc, room.into_inner().into_stage(), name)?;
        push_record(&mut records, record)?;
    }
    Ok(records)
}

/// The record of the room, which has this name. `Missing` if the room is not open.
fn close_stage<P: RoomHistories>(
    alloc: Global,
    stage: Stage<P>,
    name: RoomName,
) -> Result<RoomRecord<P>, CloseFault>
    ensures name { IfOk result (λ one. one.room ≡ name) }
    ensures closed { IfOk result (λ one.
        IsClosed P.limits (map arc_value one.entries.items) one.parts.items) }
{
    match stage {
        Stage::Open(room) => room.close(alloc, name),
        Stage::Free => Err(CloseFault::Missing { room: name }),
    }
}

/// Appends the records of the rooms that are open on demand. `Missing` if one is not in its slot.
pub(crate) fn close_others<P: RoomHistories>(
    alloc: Global,
    others: Others<P>,
    records: &mut Vec<RoomRecord<P>>,
) -> Result<(), CloseFault>
    ensures names { OnOk result ((names : List Bytes) × (length names ≤ others)
        × (map (λ one. one.room) records.new.items
        ≡ map (λ one. one.room) records.old.items ++ names)) }
    ensures closed { All (λ one. IsClosed P.limits
        (map arc_value one.entries.items) one.parts.items) records.old.items →
        OnOk result (All (λ one. IsClosed P.limits
        (map arc_value one.entries.items) one.parts.items) records.new.items) }
{
    let (openings, mut slots, first) = others.into_parts();
    let most = slots.len();
    let mut count: usize = 0;
    for (name, opening) in openings {
        if count >= most {
            return Err(CloseFault::Missing { room: name });
        }
        let index = opening.place().saturating_sub(first);
        let stage = take_stage(slots.as_mut_slice(), index, &opening);
        push_record(records, close_stage(alloc, stage, name)?)?;
        count += 1;
    }
    Ok(())
}

/// Takes the room of this opening out of its slot, which has this index. `Free` if it is not there.
fn take_stage<P: RoomHistories>(
    slots: &mut [CachePadded<Mutex<Stage<P>>>],
    index: usize,
    opening: &Opening<P>,
) -> Stage<P> {
    let Some(slot) = slots.get_mut(index) else {
        return Stage::Free;
    };
    let stage = std::mem::replace(slot.get_mut(), Stage::Free);
    if stage.is_open_as(opening) {
        stage
    } else {
        Stage::Free
    }
}

/// Appends a record.
fn push_record<P: RoomHistories>(
    records: &mut Vec<RoomRecord<P>>,
    last: RoomRecord<P>,
) -> Result<(), NoMemory>
    ensures { OnOk result (records.new.items ≡ records.old.items ++ last ∷ []) }
{
    Ok(records.push(last)?)
}
