//! Lists in strictly increasing order.

ghost use Rattle.std.specs.Prelude.{◌≡◌, Bool, Some, None, if◌then◌else◌};
ghost use Rattle.wire_reader.specs.steps.Reading.{Gives};
ghost use Rattle.wire.specs.Rising.{rise, id_before, attr_before, site_before, version_before};

use crate::fault::ReadFault;
use base_types::{Key, Value, ValueText, VersionId};
use rules::Version;

/// A value with an order in which a list may have to increase.
pub(crate) trait Ranked {
    ghost before: { Self → Self → Bool };

    fn is_before(&self, next: &Self) -> bool
        ensures { result ≡ before self.now next.now };
}

impl Ranked for VersionId {
    ghost before = { id_before };

    fn is_before(&self, next: &VersionId) -> bool {
        *self < *next
    }
}

impl Ranked for Version {
    ghost before = { version_before };

    fn is_before(&self, next: &Version) -> bool {
        self.id < next.id
    }
}

impl Ranked for (Key, Value) {
    ghost before = { attr_before };

    fn is_before(&self, next: &(Key, Value)) -> bool {
        self.0 < next.0
    }
}

impl Ranked for (u32, ValueText) {
    ghost before = { site_before };

    fn is_before(&self, next: &(u32, ValueText)) -> bool {
        self.0 < next.0
    }
}

/// Does each come before the next one?
#[tactic(auto, unfolding(wire::specs::Rising::rise))]
fn do_rise<T: Ranked>(items: &[T]) -> bool
    ensures { result ≡ rise T.before items.now }
{
    let [first, others @ ..] = items else {
        return true;
    };
    let [second, ..] = others else {
        return true;
    };
    first.is_before(second) && do_rise(others)
}

/// These items, where they rise.
pub(crate) fn rising<T: Ranked + Drop>(items: Vec<T>) -> Result<Vec<T>, ReadFault>
    ensures { Gives (λ kept. kept.items) result
        (if rise T.before items.items then Some items.items else None) }
{
    if do_rise(&items) {
        Ok(items)
    } else {
        Err(ReadFault::Bad)
    }
}
