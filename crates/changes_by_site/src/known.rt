//! What an author knows of an object's changes.

use places::PlaceSet;

/// Which changes of an object are known.
#[derive(Drop)]
pub enum Known {
    /// All.
    All,
    /// Those at these places.
    Places(PlaceSet),
}
