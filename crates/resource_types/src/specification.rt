//! What clients ask for, and what is published for a Route.
use crate::metadata::Labels;
use json_tree::{Alike, Copied, Members, Text};
use std::alloc::{AllocError, Global};

/// What a Revision runs. Two of its numbers are kept apart; the rest is kept as it was given.
#[derive(Debug, Drop, PartialEq)]
pub struct PodSpec {
    /// `containerConcurrency`: requests at one time, from 0 to 1,000 where it is valid. 0 means no limit.
    pub concurrency: Option<u64>,
    /// `timeoutSeconds`, from 0 to 600 where it is valid.
    pub timeout: Option<u64>,
    /// All other members, such as `containers`. The names rise strictly.
    pub rest: Members,
}

/// What Revisions are made of.
#[derive(Debug, Drop, PartialEq)]
pub struct Template {
    /// The simple name of the Revision to be made, or empty: it is then made from the Configuration's name.
    pub name: Text,
    /// The labels of the Revision.
    pub labels: Labels,
    /// The annotations of the Revision.
    pub annotations: Labels,
    /// What the Revision runs.
    pub spec: PodSpec,
}

/// A part of a Route's traffic.
///
/// A target that names a Revision is one on that Revision, whatever Configuration it gives. Any other target is one on
/// its Configuration, even where that name is empty.
#[derive(Debug, Drop, PartialEq)]
pub struct Target {
    /// The simple name of a Configuration, or empty.
    pub configuration: Text,
    /// The simple name of a Revision, or empty.
    pub revision: Text,
    /// `latestRevision`: whether the target moves on to each new Revision.
    pub latest: Option<bool>,
    /// The share of the requests, from 0 to 100 where it is valid.
    pub percent: Option<u64>,
    /// A label that gives the target a host of its own, or empty.
    pub tag: Text,
    /// The address of that host, in a status; empty in a spec.
    pub url: Text,
}

/// A row of a published table: a host and a Revision.
#[derive(Debug, Drop, PartialEq)]
pub struct Row {
    /// The target's tag, or empty for the Route's own host.
    pub tag: Text,
    /// The host that the row is for.
    pub host: Text,
    /// The simple name of the Revision that gets the requests.
    pub revision: Text,
    /// The Revision's uid.
    pub uid: u64,
    /// The share of the host's requests, from 1 to 100.
    pub percent: u64,
}

impl Copied for PodSpec {
    fn copy(&self, alloc: Global) -> Result<PodSpec, AllocError> {
        Ok(PodSpec {
            concurrency: self.concurrency,
            timeout: self.timeout,
            rest: self.rest.copy(alloc)?,
        })
    }
}

impl Copied for Template {
    fn copy(&self, alloc: Global) -> Result<Template, AllocError> {
        Ok(Template {
            name: self.name.copy(alloc)?,
            labels: self.labels.copy(alloc)?,
            annotations: self.annotations.copy(alloc)?,
            spec: self.spec.copy(alloc)?,
        })
    }
}

impl Copied for Target {
    fn copy(&self, alloc: Global) -> Result<Target, AllocError> {
        Ok(Target {
            configuration: self.configuration.copy(alloc)?,
            revision: self.revision.copy(alloc)?,
            latest: self.latest,
            percent: self.percent,
            tag: self.tag.copy(alloc)?,
            url: self.url.copy(alloc)?,
        })
    }
}

impl Copied for Row {
    fn copy(&self, alloc: Global) -> Result<Row, AllocError> {
        Ok(Row {
            tag: self.tag.copy(alloc)?,
            host: self.host.copy(alloc)?,
            revision: self.revision.copy(alloc)?,
            uid: self.uid,
            percent: self.percent,
        })
    }
}

impl Alike for PodSpec {
    fn equals(&self, other: &PodSpec) -> bool {
        self.concurrency.equals(&other.concurrency)
            && self.timeout.equals(&other.timeout)
            && self.rest.equals(&other.rest)
    }
}

impl Alike for Template {
    fn equals(&self, other: &Template) -> bool {
        self.name.equals(&other.name)
            && self.labels.equals(&other.labels)
            && self.annotations.equals(&other.annotations)
            && self.spec.equals(&other.spec)
    }
}

impl Alike for Target {
    fn equals(&self, other: &Target) -> bool {
        self.configuration.equals(&other.configuration)
            && self.revision.equals(&other.revision)
            && self.latest.equals(&other.latest)
            && self.percent.equals(&other.percent)
            && self.tag.equals(&other.tag)
            && self.url.equals(&other.url)
    }
}

impl Alike for Row {
    fn equals(&self, other: &Row) -> bool {
        self.tag.equals(&other.tag)
            && self.host.equals(&other.host)
            && self.revision.equals(&other.revision)
            && self.uid == other.uid
            && self.percent == other.percent
    }
}
