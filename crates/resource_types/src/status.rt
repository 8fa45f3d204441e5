//! Statuses: what the controllers found.
ghost use Rattle.std.specs.Prelude.{◌≡◌, IfOk};
ghost use Rattle.resource_types.specs.Objects.{no_status};

use crate::conditions::Condition;
use crate::specification::Target;
use json_tree::{Alike, Copied, Seq, Text};
use std::alloc::{AllocError, Global};

/// What the controllers found of a Service, a Configuration, a Revision or a Route.
#[derive(Debug, Drop, PartialEq)]
pub struct ObjectStatus {
    /// The generation of the object that the status was found for, or 0.
    pub observed: u64,
    /// The simple name of the latest created Revision, or empty.
    pub created: Text,
    /// The simple name of the latest ready Revision, or empty.
    pub ready: Text,
    /// The object's address, or empty.
    pub url: Text,
    /// The targets that are published.
    pub traffic: Seq<Target>,
    /// The conditions, in order of their types.
    pub conditions: Seq<Condition>,
}

impl ObjectStatus {
    /// The status of an object that no controller has looked at: each field is empty.
    pub fn empty(alloc: Global) -> Result<ObjectStatus, AllocError>
        ensures { IfOk result (λ status. status ≡ no_status) }
    {
        Ok(ObjectStatus {
            observed: 0,
            created: Text::new(alloc, "")?,
            ready: Text::new(alloc, "")?,
            url: Text::new(alloc, "")?,
            traffic: Seq::new(alloc),
            conditions: Seq::new(alloc),
        })
    }
}

impl Copied for ObjectStatus {
    fn copy(&self, alloc: Global) -> Result<ObjectStatus, AllocError> {
        Ok(ObjectStatus {
            observed: self.observed,
            created: self.created.copy(alloc)?,
            ready: self.ready.copy(alloc)?,
            url: self.url.copy(alloc)?,
            traffic: self.traffic.copy(alloc)?,
            conditions: self.conditions.copy(alloc)?,
        })
    }
}

impl Alike for ObjectStatus {
    fn equals(&self, other: &ObjectStatus) -> bool {
        self.observed == other.observed
            && self.created.equals(&other.created)
            && self.ready.equals(&other.ready)
            && self.url.equals(&other.url)
            && self.traffic.equals(&other.traffic)
            && self.conditions.equals(&other.conditions)
    }
}
