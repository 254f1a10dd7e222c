//! Operations, and the entries of a room's record.

ghost use Rattle.std.specs.Prelude.{◌≡◌, true, IfOk};
ghost use Rattle.rules.specs.declared.history.Body.TheVariants.{New, Put};
ghost use Rattle.rules.specs.Bodies.{are_at_odds, is_change_body, is_drop_body, pairs_of_body, version_of_body};
ghost use Rattle.rules.specs.Operations.{object_of};
ghost use Rattle.rules.specs.Records.{is_end, is_join};

use crate::attrs::Attrs;
use crate::pairs::Pairs;
use base_types::{Key, Kind, NoMemory, OpName, StateVector, Value, VersionId};
use std::alloc::Global;

/// What an operation does.
#[derive(Debug, Drop)]
pub enum Body {
    /// Creates an object, which gets the operation's name.
    New {
        kind: Kind,
        attrs: Attrs,
    },
    /// Gives values to keys of an object, starting from a version that its author saw.
    Put {
        object: OpName,
        version: VersionId,
        pairs: Pairs,
    },
    /// Deletes a version that its author saw.
    DropVersion {
        object: OpName,
        version: VersionId,
    },
}

/// An equal creation.
fn copy_new(alloc: Global, kind: &Kind, attrs: &Attrs) -> Result<Body, NoMemory>
    ensures { IfOk result (λ body. body ≡ New kind.now attrs.now) }
{
    let kind = kind.copy(alloc)?;
    let attrs = attrs.copy(alloc)?;
    Ok(Body::New { kind, attrs })
}

/// An equal put.
fn copy_put(
    alloc: Global,
    object: OpName,
    version: &VersionId,
    pairs: &Pairs,
) -> Result<Body, NoMemory>
    ensures { IfOk result (λ body. body ≡ Put object version.now pairs.now) }
{
    let version = version.copy(alloc)?;
    let pairs = pairs.copy(alloc)?;
    Ok(Body::Put {
        object,
        version,
        pairs,
    })
}

impl Body {
    /// Returns an equal copy.
    ///
    /// # Errors
    ///
    /// `NoMemory` if an allocation failed.
    pub fn copy(&self, alloc: Global) -> Result<Body, NoMemory>
        ensures { IfOk result (λ body. body ≡ self.now) }
    {
        match self {
            Body::New { kind, attrs } => copy_new(alloc, kind, attrs),
            Body::Put {
                object,
                version,
                pairs,
            } => copy_put(alloc, *object, version, pairs),
            Body::DropVersion { object, version } => Ok(Body::DropVersion {
                object: *object,
                version: version.copy(alloc)?,
            }),
        }
    }

    /// Does it change an object, and not create one?
    pub fn is_change(&self) -> bool
        ensures { result ≡ is_change_body self.now }
    {
        !matches!(self, Body::New { .. })
    }

    /// Is it a drop?
    pub fn is_drop(&self) -> bool
        ensures { result ≡ is_drop_body self.now }
    {
        matches!(self, Body::DropVersion { .. })
    }

    /// The attributes that a put gives. A creation and a drop give none.
    pub fn pairs(&self) -> &[(Key, Value)]
        ensures { result.now ≡ pairs_of_body self.now }
    {
        match self {
            Body::Put { pairs, .. } => pairs.pairs(),
            Body::New { .. } | Body::DropVersion { .. } => &[],
        }
    }

    /// The identifier of the version that a change starts from. The body must not be a creation.
    pub fn version(&self) -> &VersionId
        requires { is_change_body self.now ≡ true }
        ensures { result.now ≡ version_of_body self.now }
    {
        match self {
            Body::Put { version, .. } | Body::DropVersion { version, .. } => version,
            Body::New { .. } => unreachable!(),
        }
    }

    /// Are the two changes incompatible when they are concurrent? They are if both are puts that
    /// give some key different values, or if exactly one is a drop.
    pub fn is_at_odds(&self, other: &Body) -> bool
        ensures { result ≡ are_at_odds self.now other.now }
    {
        match (self, other) {
            (
                Body::Put { pairs, .. },
                Body::Put {
                    pairs: other_pairs,
                    ..
                },
            ) => pairs.differ(other_pairs),
            (Body::Put { .. }, Body::DropVersion { .. }) => true,
            (Body::DropVersion { .. }, Body::Put { .. }) => true,
            (Body::DropVersion { .. }, Body::DropVersion { .. }) => false,
            (Body::New { .. }, _) => false,
            (_, Body::New { .. }) => false,
        }
    }
}

impl PartialEq for Body {
    ghost use Rattle.std.specs.Cmp.{partial_equiv_from_equiv};
    ghost use Rattle.rules.specs.steps.Equality.{same_body, same_body-equivalence};

    ghost eq = { same_body };

    ghost laws = { partial_equiv_from_equiv same_body-equivalence };

    fn eq(&self, other: &Body) -> bool {
        match (self, other) {
            (
                Body::New { kind, attrs },
                Body::New {
                    kind: other_kind,
                    attrs: other_attrs,
                },
            ) => *kind == *other_kind && *attrs == *other_attrs,
            (
                Body::Put {
                    object,
                    version,
                    pairs,
                },
                Body::Put {
                    object: other_object,
                    version: other_version,
                    pairs: other_pairs,
                },
            ) => *object == *other_object && *version == *other_version && *pairs == *other_pairs,
            (
                Body::DropVersion { object, version },
                Body::DropVersion {
                    object: other_object,
                    version: other_version,
                },
            ) => *object == *other_object && *version == *other_version,
            _ => false,
        }
    }
}

impl Eq for Body {
    ghost use Rattle.rules.specs.steps.Equality.{same_body-equivalence};

    ghost laws = { same_body-equivalence };
}

/// An operation: its name, what its author had seen, and what it does.
#[derive(Debug, Drop)]
pub struct Op {
    pub name: OpName,
    pub seen: StateVector,
    pub body: Body,
}

impl Op {
    /// The object that the operation creates or changes.
    pub fn object(&self) -> OpName
        ensures { result ≡ object_of self.now }
    {
        match &self.body {
            Body::New { .. } => self.name,
            Body::Put { object, .. } | Body::DropVersion { object, .. } => *object,
        }
    }

    /// Returns an equal copy.
    ///
    /// # Errors
    ///
    /// `NoMemory` if an allocation failed.
    pub fn copy(&self, alloc: Global) -> Result<Op, NoMemory>
        ensures { IfOk result (λ op. op ≡ self.now) }
    {
        let seen = self.seen.copy(alloc)?;
        let body = self.body.copy(alloc)?;
        Ok(Op {
            name: self.name,
            seen,
            body,
        })
    }
}

impl PartialEq for Op {
    ghost use Rattle.std.specs.Cmp.{partial_equiv_from_equiv};
    ghost use Rattle.rules.specs.steps.Equality.{same_operation, same_operation-equivalence};

    ghost eq = { same_operation };

    ghost laws = { partial_equiv_from_equiv same_operation-equivalence };

    fn eq(&self, other: &Op) -> bool {
        self.name == other.name && self.seen == other.seen && self.body == other.body
    }
}

impl Eq for Op {
    ghost use Rattle.rules.specs.steps.Equality.{same_operation-equivalence};

    ghost laws = { same_operation-equivalence };
}

/// An entry of a room's record.
#[derive(Debug, Drop)]
pub enum Entry {
    /// A site that joined.
    Join(u32),
    /// An operation of a site.
    Operation(Op),
    /// The end of the record. The room goes on in another one, whose record begins with so many
    /// entries that draw what this one draws.
    Next(u32),
}

impl Entry {
    /// Is it a join?
    pub fn is_join(&self) -> bool
        ensures { result ≡ is_join self.now }
    {
        matches!(self, Entry::Join(_))
    }

    /// Does it end the record?
    pub fn is_end(&self) -> bool
        ensures { result ≡ is_end self.now }
    {
        matches!(self, Entry::Next(_))
    }

    /// Returns an equal copy.
    ///
    /// # Errors
    ///
    /// `NoMemory` if an allocation failed.
    pub fn copy(&self, alloc: Global) -> Result<Entry, NoMemory>
        ensures { IfOk result (λ entry. entry ≡ self.now) }
    {
        match self {
            Entry::Join(site) => Ok(Entry::Join(*site)),
            Entry::Operation(op) => Ok(Entry::Operation(op.copy(alloc)?)),
            Entry::Next(count) => Ok(Entry::Next(*count)),
        }
    }
}

impl PartialEq for Entry {
    ghost use Rattle.std.specs.Cmp.{partial_equiv_from_equiv};
    ghost use Rattle.rules.specs.steps.Equality.{same_entry, same_entry-equivalence};

    ghost eq = { same_entry };

    ghost laws = { partial_equiv_from_equiv same_entry-equivalence };

    fn eq(&self, other: &Entry) -> bool {
        match (self, other) {
            (Entry::Join(site), Entry::Join(other_site)) => *site == *other_site,
            (Entry::Operation(op), Entry::Operation(other_op)) => *op == *other_op,
            (Entry::Next(count), Entry::Next(other_count)) => *count == *other_count,
            _ => false,
        }
    }
}

impl Eq for Entry {
    ghost use Rattle.rules.specs.steps.Equality.{same_entry-equivalence};

    ghost laws = { same_entry-equivalence };
}
