//! The entries of a record that draws something.

use crate::picture::Picture;
use crate::plan::{ObjectPlan, PlannedPut, plan_object};
use crate::reason::{Reason, WritingFault};
use base_types::{Key, Kind, NoMemory, OpName, StateVector, Value, VectorFault, VersionId};
use rules::{Attrs, Body, Entry, Op, Pairs};
use std::alloc::Global;

/// The site that creates all objects.
const CREATOR: u32 = 1;

/// A record that is being written: first the joins, then the creations, then the puts.
#[derive(Drop)]
struct Writing {
    entries: Vec<Entry>,
    /// How many objects the first site has created.
    creations: u32,
    /// How many operations each site has made, from the first site on.
    made: Vec<u32>,
}

/// The vector of these pairs of a site and a count.
fn vector(alloc: Global, pairs: &[(u32, u32)]) -> Result<StateVector, WritingFault> {
    match StateVector::from_pairs(alloc, pairs) {
        Ok(vector) => Ok(vector),
        Err(VectorFault::NoMemory) => Err(WritingFault::NoMemory),
        Err(_) => Err(Reason::TooLong.into()),
    }
}

impl Writing {
    fn new(alloc: Global) -> Writing {
        Writing {
            entries: Vec::new(alloc),
            creations: 0,
            made: Vec::new(alloc),
        }
    }

    /// Adds the next site's join.
    fn join(&mut self, site: u32) -> Result<(), NoMemory> {
        self.entries.push(Entry::Join(site))?;
        self.made.push(0)?;
        Ok(())
    }

    /// How many operations the site has made.
    fn made_by(&self, site: u32) -> u32 {
        match self.made.get(site.saturating_sub(1) as usize) {
            Some(count) => *count,
            None => 0,
        }
    }

    /// What the site has seen: its own operations, and a site other than the first one the
    /// creations too.
    fn seen_by(&self, alloc: Global, site: u32) -> Result<StateVector, WritingFault> {
        match (site, self.made_by(site)) {
            (CREATOR, 0) => Ok(StateVector::empty(alloc)),
            (CREATOR, made) => vector(alloc, &[(CREATOR, made)]),
            (_, 0) => vector(alloc, &[(CREATOR, self.creations)]),
            (_, made) => vector(alloc, &[(CREATOR, self.creations), (site, made)]),
        }
    }

    /// Adds an operation of a site, its next one.
    fn push(&mut self, op: Op) -> Result<(), NoMemory> {
        let name = op.name;
        self.entries.push(Entry::Operation(op))?;
        if let Some(count) = self.made.get_mut(name.site().saturating_sub(1) as usize) {
            *count = name.seq();
        }
        Ok(())
    }

    /// The name of the site's next operation, and what the site has seen.
    fn next_by(&self, alloc: Global, site: u32) -> Result<(OpName, StateVector), WritingFault> {
        let made = self.made_by(site).saturating_add(1);
        let name = OpName::new(site, made).ok_or(Reason::TooLong)?;
        Ok((name, self.seen_by(alloc, site)?))
    }

    /// Adds the site's next operation, and returns its name.
    fn add(&mut self, alloc: Global, site: u32, body: Body) -> Result<OpName, WritingFault> {
        match self.next_by(alloc, site) {
            Ok((name, seen)) => {
                self.push(Op { name, seen, body })?;
                Ok(name)
            }
            Err(fault) => {
                drop(body);
                Err(fault)
            }
        }
    }

    /// Adds the creation of an object, and returns its name.
    fn create(
        &mut self,
        alloc: Global,
        kind: &Kind,
        attrs: Vec<(Key, Value)>,
    ) -> Result<OpName, WritingFault> {
        let attrs = Attrs::from_pairs(attrs).map_err(|_| Reason::Refused)?;
        let kind = kind.copy(alloc)?;
        let name = self.add(alloc, CREATOR, Body::New { kind, attrs })?;
        self.creations = name.seq();
        Ok(name)
    }

    /// Adds a put of a site, on top of what it has put before.
    fn put(
        &mut self,
        alloc: Global,
        site: u32,
        object: OpName,
        pairs: Vec<(Key, Value)>,
    ) -> Result<(), WritingFault> {
        let pairs = Pairs::from_pairs(pairs).map_err(|_| Reason::Refused)?;
        let version = VersionId::empty(alloc);
        self.add(
            alloc,
            site,
            Body::Put {
                object,
                version,
                pairs,
            },
        )?;
        Ok(())
    }

    /// Adds the puts of an object.
    fn add_puts(
        &mut self,
        alloc: Global,
        object: OpName,
        puts: Vec<PlannedPut>,
    ) -> Result<(), WritingFault> {
        for PlannedPut { site, pairs } in puts {
            self.put(alloc, site, object, pairs)?;
        }
        Ok(())
    }

    /// Adds the creation of an object. Adds its name to `created`, with the puts that are to follow.
    fn create_pictured(
        &mut self,
        alloc: Global,
        picture: &Picture,
        created: &mut Vec<(OpName, Vec<PlannedPut>)>,
    ) -> Result<(), WritingFault> {
        let ObjectPlan { attrs, puts } = plan_object(alloc, picture.versions())?;
        let name = self.create(alloc, picture.kind(), attrs)?;
        created.push((name, puts))?;
        Ok(())
    }

    /// Adds the creations of all objects. Returns their names, with the puts that are to follow.
    fn create_all(
        &mut self,
        alloc: Global,
        pictures: &[Picture],
    ) -> Result<Vec<(OpName, Vec<PlannedPut>)>, WritingFault> {
        let mut created = Vec::new(alloc);
        for picture in pictures {
            self.create_pictured(alloc, picture, &mut created)?;
        }
        Ok(created)
    }

    /// Adds the creations of all objects, then the puts of each.
    fn write_all(&mut self, alloc: Global, pictures: &[Picture]) -> Result<(), WritingFault> {
        let created = self.create_all(alloc, pictures)?;
        for (object, puts) in created {
            self.add_puts(alloc, object, puts)?;
        }
        Ok(())
    }
}

/// The greatest number of versions of one of the objects.
fn most_versions(pictures: &[Picture]) -> usize {
    let mut most = 0;
    for picture in pictures {
        most = most.max(picture.versions().len());
    }
    most
}

/// A record with the joins that a drawing needs.
fn with_joins(alloc: Global, pictures: &[Picture]) -> Result<Writing, NoMemory> {
    let mut writing = Writing::new(alloc);
    let mut site: u32 = 0;
    for _ in 0..most_versions(pictures) {
        site = site.saturating_add(1);
        writing.join(site)?;
    }
    Ok(writing)
}

/// The entries of a record that is to draw this: joins, then the creations of all objects by the
/// first site, then the puts of each object. It has as many joins as an object has versions at
/// most. The certificate decides whether it does draw this.
///
/// # Errors
/// - `Inseparable` if nothing was found that keeps the versions of an object apart.
/// - `TooLong` if a site would make more than 16,384 operations.
/// - `Refused` if a creation or a put would not be in range.
/// - `NoMemory` if an allocation failed.
pub(crate) fn entries_of(alloc: Global, pictures: &[Picture]) -> Result<Vec<Entry>, WritingFault> {
    let mut writing = with_joins(alloc, pictures)?;
    writing.write_all(alloc, pictures)?;
    Ok(writing.entries)
}
