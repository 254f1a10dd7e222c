//! Relations of conflict between places.

ghost use Rattle.std.specs.Prelude.{◌≡◌, ℕ, ◌<◌, Bool, filter};
ghost use Rattle.base_types.specs.Names.{Name};
ghost use Rattle.places.specs.steps.PlaceSet.{places};
ghost use Rattle.places.specs.steps.Relations.{places_in_conflict, IsRelation};

use crate::PlaceSet;
use base_types::OpName;

/// Operations by their places, which count from 0, and which two of them conflict.
pub trait Relation {
    /// The number of operations.
    ghost size: { Self → ℕ };

    /// The name of the operation at a place.
    ghost name_at: { Self → ℕ → Name };

    /// Are the operations at two places in conflict?
    ghost conflicts: { Self → ℕ → ℕ → Bool };

    /// The number of operations. On their places conflict is symmetric, no place conflicts with
    /// itself, and names are distinct.
    fn len(&self) -> u32
        ensures size { result ≡ size self.now }
        ensures relation { IsRelation (size self.now) (name_at self.now) (conflicts self.now) };

    /// The name of the operation at a place.
    fn name(&self, i: u32) -> OpName
        requires { i < size self.now }
        ensures { result ≡ name_at self.now i };

    /// The lower places whose operations conflict with the one at a place.
    fn earlier_conflicts(&self, i: u32) -> &PlaceSet
        requires { i < size self.now }
        ensures { result.now ≡ filter (conflicts self.now i) (places i) };

    /// The places of the operations that conflict with some operation.
    fn in_conflict(&self) -> &PlaceSet
        ensures { result.now ≡ places_in_conflict (conflicts self.now) (size self.now) };
}
