//! Conditions: what is known of an object, one truth each.
use json_tree::{Alike, Copied, Text};
use std::alloc::{AllocError, Global};

/// The status of a condition.
#[derive(Clone, Copy, Debug, PartialEq, Eq)]
pub enum Truth {
    /// It holds.
    True,
    /// It does not hold.
    False,
    /// It is not known yet.
    Unknown,
}

/// The types of conditions, in order of their words, which is the order in a status.
#[derive(Clone, Copy, Debug, PartialEq, Eq, PartialOrd, Ord)]
pub enum CondName {
    /// Of a Route: each Revision that a target names is ready, and each one that a target on a Configuration comes to has
    /// been ready.
    AllTrafficAssigned,
    /// Of a Service: its Configuration is ready.
    ConfigurationsReady,
    /// Of a Revision: its container answers.
    ContainerHealthy,
    /// Of a Revision: it was ready once. It is of severity `Info`, and counts for no `Ready`.
    HasBeenReady,
    /// Of a Route: its table is published.
    IngressReady,
    /// The fold of the object's other conditions.
    Ready,
    /// Of a Revision: what it runs on is there.
    ResourcesAvailable,
    /// Of a Service: its Route is ready.
    RoutesReady,
}

/// One thing that is known of an object.
#[derive(Debug, Drop, PartialEq)]
pub struct Condition {
    /// Its type.
    pub name: CondName,
    /// Its status.
    pub truth: Truth,
    /// Why, in one word, or empty.
    pub reason: Text,
    /// Why, for people, or empty.
    pub message: Text,
    /// Whether its severity is `Info`.
    pub info: bool,
    /// The moment from which on the truth is as it is, in whole seconds since 1970.
    pub since: u64,
}

/// What is reported of one part of a Revision.
#[derive(Debug, Drop, PartialEq)]
pub struct Part {
    /// Whether the part is in order.
    pub truth: Truth,
    /// Why, in one word, or empty.
    pub reason: Text,
    /// Why, for people, or empty.
    pub message: Text,
}

impl Copied for Truth {
    fn copy(&self, _alloc: Global) -> Result<Truth, AllocError> {
        Ok(*self)
    }
}

impl Copied for CondName {
    fn copy(&self, _alloc: Global) -> Result<CondName, AllocError> {
        Ok(*self)
    }
}

impl Copied for Condition {
    fn copy(&self, alloc: Global) -> Result<Condition, AllocError> {
        Ok(Condition {
            name: self.name,
            truth: self.truth,
            reason: self.reason.copy(alloc)?,
            message: self.message.copy(alloc)?,
            info: self.info,
            since: self.since,
        })
    }
}

impl Copied for Part {
    fn copy(&self, alloc: Global) -> Result<Part, AllocError> {
        Ok(Part {
            truth: self.truth,
            reason: self.reason.copy(alloc)?,
            message: self.message.copy(alloc)?,
        })
    }
}

impl Alike for Truth {
    fn equals(&self, other: &Truth) -> bool {
        *self == *other
    }
}

impl Alike for CondName {
    fn equals(&self, other: &CondName) -> bool {
        *self == *other
    }
}

impl Alike for Condition {
    fn equals(&self, other: &Condition) -> bool {
        self.name == other.name
            && self.truth == other.truth
            && self.reason.equals(&other.reason)
            && self.message.equals(&other.message)
            && self.info == other.info
            && self.since == other.since
    }
}

impl Alike for Part {
    fn equals(&self, other: &Part) -> bool {
        self.truth == other.truth
            && self.reason.equals(&other.reason)
            && self.message.equals(&other.message)
    }
}
