//! What every object has beside its body.
ghost use Rattle.std.specs.Prelude.{◌≡◌, ◌↔◌, IsTrue};

use crate::names::Kind;
use json_tree::{Alike, Copied, Table, Text};
use std::alloc::{AllocError, Global};
use version_store::Stamp;

/// Texts under names: labels or annotations. The names rise strictly.
pub type Labels = Table<Text>;

/// The object that made another one, in the namespace of that one.
#[derive(Debug, Drop, PartialEq)]
pub struct Owner {
    /// The owner's kind.
    pub kind: Kind,
    /// The owner's simple name.
    pub name: Text,
    /// The owner's uid, which tells it from later objects of its name.
    pub uid: u64,
}

/// What every object has beside its key and its body.
#[derive(Debug, Drop, PartialEq)]
pub struct Meta {
    /// What the store says of the object: version, generation, uid and creation.
    pub stamp: Stamp,
    /// Who made the object, if not a client.
    pub owner: Option<Owner>,
    /// The labels.
    pub labels: Labels,
    /// The annotations.
    pub annotations: Labels,
}

impl Copied for Owner {
    fn copy(&self, alloc: Global) -> Result<Owner, AllocError> {
        Ok(Owner {
            kind: self.kind,
            name: self.name.copy(alloc)?,
            uid: self.uid,
        })
    }
}

impl Copied for Meta {
    fn copy(&self, alloc: Global) -> Result<Meta, AllocError> {
        Ok(Meta {
            stamp: self.stamp,
            owner: self.owner.copy(alloc)?,
            labels: self.labels.copy(alloc)?,
            annotations: self.annotations.copy(alloc)?,
        })
    }
}

impl Alike for Owner {
    fn equals(&self, other: &Owner) -> bool {
        self.kind == other.kind && self.name.equals(&other.name) && self.uid == other.uid
    }
}

impl Alike for Meta {
    fn equals(&self, other: &Meta) -> bool {
        has_same_stamp(&self.stamp, &other.stamp)
            && self.owner.equals(&other.owner)
            && self.labels.equals(&other.labels)
            && self.annotations.equals(&other.annotations)
    }
}

fn has_same_stamp(one: &Stamp, two: &Stamp) -> bool
    ensures { IsTrue result ↔ (one.now ≡ two.now) }
{
    one.version == two.version
        && one.generation == two.generation
        && one.uid == two.uid
        && one.created == two.created
}
