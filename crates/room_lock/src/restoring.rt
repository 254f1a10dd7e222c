//! The parts of a room that begins with a record.

ghost use Rattle.std.specs.Prelude.{◌≡◌, ◌≤◌, ◌<◌, ◌^◌, IfOk, length, map};
ghost use Rattle.std.specs.Prelude.{count_by, drop};
ghost use Rattle.std.specs.Arc.{arc_value};
ghost use Rattle.rules.specs.declared.limits.TheConstants.Limits.{MAX_ENTRIES};
ghost use Rattle.room_lock.specs.Sites.{is_of_site};
ghost use Rattle.room_lock.specs.steps.Shelves.{full_shelf, whole_part};

use crate::part::Part;
use crate::prefix::Prefix;
use base_types::NoMemory;
use openings::RoomHistories;
use room_core::RoomState;
use room_record::shared_entries;
use rules::Entry;
use std::alloc::Global;
use std::sync::Arc;

/// Shared owners of the entries from a place on. Linear in these.
pub(crate) fn share_from(
    alloc: Global,
    entries: &[Arc<Entry>],
    from: usize,
) -> Result<Vec<Arc<Entry>>, NoMemory>
    requires { from ≤ length entries.now }
    ensures { IfOk result (λ owners. map arc_value owners.items
        ≡ drop from (map arc_value entries.now)) }
{
    shared_entries(alloc, &entries[from..])
}

/// Returns whether an entry is the site's join or an operation of the site.
fn is_of_site(site: u32, entry: &Entry) -> bool
    ensures { result ≡ is_of_site site entry.now }
{
    match entry {
        Entry::Join(joined) => *joined == site,
        Entry::Operation(op) => op.name.site() == site,
        Entry::Next(_) => false,
    }
}

/// The number of entries of a site. Linear in the entries.
fn count_of_site(site: u32, entries: &[Arc<Entry>]) -> u32
    requires { length entries.now < 2 ^ 32 }
    ensures { result ≡ count_by (is_of_site site) (map arc_value entries.now) }
{
    let mut count = 0;
    for entry in entries {
        if is_of_site(site, entry) {
            count += 1;
        }
    }
    count
}

/// The part of a site that has seen these entries, which are the whole record.
fn whole_part<P: RoomHistories>(site: u32, entries: &[Arc<Entry>], whole: &Prefix<P>) -> Part<P>
    requires seen { whole.now.entries ≡ map arc_value entries.now }
    requires short { length entries.now < 2 ^ 32 }
    ensures { result ≡ whole_part whole.now.opening whole.now.entries site }
{
    Part {
        site,
        added: count_of_site(site, entries),
        seen: whole.copy(),
    }
}

/// The parts of all sites of a room that begins with a record. Each has seen the whole record.
/// Linear in the record for each site.
pub(crate) fn fill_shelf<P: RoomHistories>(
    alloc: Global,
    state: &RoomState,
    whole: &Prefix<P>,
) -> Result<Vec<Option<Part<P>>>, NoMemory>
    requires seen { whole.now.entries ≡ state.now.room.entries }
    requires short { length state.now.room.entries ≤ MAX_ENTRIES }
    ensures { IfOk result (λ shelf. shelf.items ≡ full_shelf whole.now.opening whole.now.entries) }
{
    let mut shelf = Vec::with_capacity(alloc, state.sites() as usize)?;
    for before in 0..state.sites() {
        shelf.push(Some(whole_part(before + 1, state.entries(), whole)))?;
    }
    Ok(shelf)
}
