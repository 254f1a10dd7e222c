//! An object as it is drawn.

ghost use Rattle.std.specs.Prelude.{◌≡◌};
ghost use Rattle.renewal.specs.steps.Equality.{same_drawing};

use base_types::Kind;
use rules::AttrList;
use std::marker::Model;

/// An object as it is drawn: its kind, and its versions that are not gone, at least one. It has
/// neither the object's name nor the versions' identifiers.
#[derive(Drop)]
pub struct Picture {
    kind: Kind,
    versions: Vec<AttrList>,
}

impl Model for Picture {
    ghost use Rattle.renewal.specs.Drawn.{Drawn};

    ghost Value = { Drawn };

    ghost view = { λ picture. (picture.kind, picture.versions.items) };
}

impl Picture {
    /// An object of this kind with these versions.
    pub(crate) fn new(kind: Kind, versions: Vec<AttrList>) -> Picture
        ensures { result ≡ (kind, versions.items) }
    {
        Picture { kind, versions }
    }

    /// The kind.
    pub fn kind(&self) -> &Kind
        ensures { result.now ≡ self.now.0 }
    {
        &self.kind
    }

    /// The attributes of each version, in order of identifier.
    pub fn versions(&self) -> &[AttrList]
        ensures { result.now ≡ self.now.1 }
    {
        &self.versions
    }
}

impl PartialEq for Picture {
    ghost use Rattle.std.specs.Cmp.{partial_equiv_from_equiv};
    ghost use Rattle.renewal.specs.steps.Equality.{same_picture, same_picture-equivalence};

    ghost eq = { same_picture };

    ghost laws = { partial_equiv_from_equiv same_picture-equivalence };

    fn eq(&self, other: &Picture) -> bool {
        self.kind == other.kind && self.versions.as_slice() == other.versions.as_slice()
    }
}

impl Eq for Picture {
    ghost use Rattle.renewal.specs.steps.Equality.{same_picture-equivalence};

    ghost laws = { same_picture-equivalence };
}

/// Returns whether the two drawings are equal. Stops at the first difference.
pub(crate) fn are_same(pictures: &[Picture], others: &[Picture]) -> bool
    ensures { result ≡ same_drawing pictures.now others.now }
{
    pictures == others
}
