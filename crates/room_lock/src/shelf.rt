//! The shelf of a room: the parts of the sites that no session is in as. It has a place for each
//! site, from site 1 on.

ghost use Rattle.std.specs.Prelude.{◌≡◌, ◌↔◌, None, Some, true, false, IfErr, IfOk, OnErr, OnOk};
ghost use Rattle.std.specs.Prelude.{MatchOption, Contains, map, vec_capacity};
ghost use Rattle.room_lock.specs.Shelves.{is_away, part_of};
ghost use Rattle.room_lock.specs.steps.Shelves.{count_away, with_at};

use crate::part::Part;
use base_types::NoMemory;
use openings::RoomHistories;
use std::alloc::Global;

/// Returns whether a session is in as this site: the site has a place, which is empty.
pub(crate) fn is_away<P: RoomHistories>(shelf: &[Option<Part<P>>], site: u32) -> bool
    ensures { result ≡ is_away shelf.now site }
{
    match (site as usize).checked_sub(1) {
        Some(place) => matches!(shelf.get(place), Some(None)),
        None => false,
    }
}

/// Returns whether a session is in as any site: a place is empty. Linear in the number of sites.
pub(crate) fn is_any_away<P: RoomHistories>(shelf: &[Option<Part<P>>]) -> bool
    ensures { (result ≡ true) ↔ Contains shelf.now None }
{
    shelf.iter().any(|place| place.is_none())
}

/// Takes a site's part off the shelf, if it is there.
pub(crate) fn take_part<P: RoomHistories>(
    shelf: &mut Vec<Option<Part<P>>>,
    site: u32,
) -> Option<Part<P>>
    ensures part { result ≡ part_of shelf.old.items site }
    ensures rest { shelf.new.items ≡ with_at shelf.old.items site None }
    ensures capacity { vec_capacity shelf.new ≡ vec_capacity shelf.old }
{
    let place = (site as usize).checked_sub(1)?;
    if place >= shelf.len() {
        return None;
    }
    shelf[place].take()
}

/// Puts a part at its site's place, if that place is empty. Otherwise returns the part.
pub(crate) fn put_part<P: RoomHistories>(
    shelf: &mut Vec<Option<Part<P>>>,
    part: Part<P>,
) -> Result<(), Part<P>>
    ensures away { OnOk result (is_away shelf.old.items part.site ≡ true) }
    ensures put { OnOk result
        (shelf.new.items ≡ with_at shelf.old.items part.site (Some part)) }
    ensures here { OnErr result (is_away shelf.old.items part.site ≡ false) }
    ensures back { IfErr result (λ back. back ≡ part) }
    ensures err { OnErr result (shelf.new ≡ shelf.old) }
{
    let Some(place) = (part.site as usize).checked_sub(1) else {
        return Err(part);
    };
    match shelf.get(place) {
        Some(None) => {
            shelf[place] = Some(part);
            Ok(())
        }
        _ => Err(part),
    }
}

/// The parts of all sites in order, or `None` if a part is absent.
pub(crate) fn all_parts<P: RoomHistories>(
    alloc: Global,
    shelf: Vec<Option<Part<P>>>,
) -> Result<Option<Vec<Part<P>>>, NoMemory>
    ensures { IfOk result (λ all. MatchOption all
        (Contains shelf.items None) (λ parts. map Some parts.items ≡ shelf.items)) }
{
    let mut parts = Vec::with_capacity(alloc, shelf.len())?;
    for place in shelf {
        match place {
            Some(part) => parts.push(part)?,
            None => return Ok(None),
        }
    }
    Ok(Some(parts))
}

/// The number of sites that a session is in as.
pub(crate) fn count_away<P: RoomHistories>(shelf: &[Option<Part<P>>]) -> usize
    ensures { result ≡ count_away shelf.now }
{
    shelf.iter().filter(|part| part.is_none()).count()
}
