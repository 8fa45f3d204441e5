//! Kinds, names, and what is found by them.
ghost use Rattle.std.specs.Prelude.{◌≡◌};
ghost use Rattle.resource_types.specs.Manifests.{kind_word, kind_text, object_kind, client_kind};

use json_tree::{Alike, Copied, Text};
use std::alloc::{AllocError, Global};

/// The kinds of objects, in the order of keys.
///
/// Service, Configuration, Revision and Route are kinds of the Knative Serving API; Health and Table are this project's own.
#[derive(Clone, Copy, Debug, PartialEq, Eq, PartialOrd, Ord)]
pub enum Kind {
    /// A template and the traffic to what is made of it: it makes one Configuration and one Route of its name.
    Service,
    /// A template, of which each change makes a Revision.
    Configuration,
    /// What one template said once. Its spec never changes.
    Revision,
    /// The targets that a host's requests are divided among.
    Route,
    /// What was last reported of a Revision.
    Health,
    /// The rows that are published for a Route.
    Table,
}

/// The kinds that clients create and replace.
#[derive(Clone, Copy, Debug, PartialEq, Eq, PartialOrd, Ord)]
pub enum ClientKind {
    /// A Service.
    Service,
    /// A Configuration.
    Configuration,
    /// A Route.
    Route,
}

/// The five controllers, in the order of slots.
#[derive(Clone, Copy, Debug, PartialEq, Eq, PartialOrd, Ord)]
pub enum Controller {
    /// Keeps a Service's Configuration, Route and status.
    Service,
    /// Keeps a Configuration's Revision and status.
    Configuration,
    /// Keeps a Revision's status, and removes an orphan.
    Revision,
    /// Removes the Revisions of a Configuration that are stale.
    Collector,
    /// Keeps a Route's pins, Table and status.
    Route,
}

/// A namespace and a simple name in it. Names are ordered by namespace, and then by simple name.
#[derive(Debug, Drop, PartialEq, Eq, PartialOrd, Ord)]
pub struct Name {
    /// The namespace.
    pub space: Text,
    /// The simple name.
    pub name: Text,
}

/// A controller at work on a name. It has one slot, which holds what it looked at or planned.
#[derive(Debug, Drop, PartialEq, Eq, PartialOrd, Ord)]
pub struct SlotKey {
    /// Which controller.
    pub controller: Controller,
    /// What it works on.
    pub name: Name,
}

/// Who makes a write.
#[derive(Debug, Drop, PartialEq, Eq, PartialOrd, Ord)]
pub enum Actor {
    /// A client of the API.
    Client,
    /// Who reports the health of Revisions.
    Reporter,
    /// A controller, at work on a name.
    Controller(SlotKey),
}

/// What an object is found by. Keys are ordered by kind, and then by name.
#[derive(Debug, Drop, PartialEq, Eq, PartialOrd, Ord)]
pub struct Key {
    /// The object's kind.
    pub kind: Kind,
    /// The object's name.
    pub name: Name,
}

impl Kind {
    /// The word of the kind, such as `Service`.
    pub fn as_str(self) -> &'static str
        ensures { result.now ≡ kind_word self }
    {
        match self {
            Kind::Service => "Service",
            Kind::Configuration => "Configuration",
            Kind::Revision => "Revision",
            Kind::Route => "Route",
            Kind::Health => "Health",
            Kind::Table => "Table",
        }
    }

    /// The kind as one that clients create and replace. `None` for the other three.
    pub fn client_kind(self) -> Option<ClientKind>
        ensures { result ≡ client_kind self }
    {
        match self {
            Kind::Service => Some(ClientKind::Service),
            Kind::Configuration => Some(ClientKind::Configuration),
            Kind::Route => Some(ClientKind::Route),
            _ => None,
        }
    }
}

impl ClientKind {
    /// The kind of the objects.
    pub fn kind(self) -> Kind
        ensures { result ≡ object_kind self }
    {
        match self {
            ClientKind::Service => Kind::Service,
            ClientKind::Configuration => Kind::Configuration,
            ClientKind::Route => Kind::Route,
        }
    }

    /// The word of the kind, such as `Service`.
    pub fn as_str(self) -> &'static str
        ensures { result.now ≡ kind_text self }
    {
        match self {
            ClientKind::Service => "Service",
            ClientKind::Configuration => "Configuration",
            ClientKind::Route => "Route",
        }
    }
}

impl Copied for Kind {
    fn copy(&self, _alloc: Global) -> Result<Kind, AllocError> {
        Ok(*self)
    }
}

impl Copied for ClientKind {
    fn copy(&self, _alloc: Global) -> Result<ClientKind, AllocError> {
        Ok(*self)
    }
}

impl Copied for Controller {
    fn copy(&self, _alloc: Global) -> Result<Controller, AllocError> {
        Ok(*self)
    }
}

impl Copied for Name {
    fn copy(&self, alloc: Global) -> Result<Name, AllocError> {
        Ok(Name {
            space: self.space.copy(alloc)?,
            name: self.name.copy(alloc)?,
        })
    }
}

impl Copied for SlotKey {
    fn copy(&self, alloc: Global) -> Result<SlotKey, AllocError> {
        Ok(SlotKey {
            controller: self.controller,
            name: self.name.copy(alloc)?,
        })
    }
}

impl Copied for Actor {
    fn copy(&self, alloc: Global) -> Result<Actor, AllocError> {
        match self {
            Actor::Client => Ok(Actor::Client),
            Actor::Reporter => Ok(Actor::Reporter),
            Actor::Controller(slot) => Ok(Actor::Controller(slot.copy(alloc)?)),
        }
    }
}

impl Copied for Key {
    fn copy(&self, alloc: Global) -> Result<Key, AllocError> {
        Ok(Key {
            kind: self.kind,
            name: self.name.copy(alloc)?,
        })
    }
}

impl Alike for Kind {
    fn equals(&self, other: &Kind) -> bool {
        *self == *other
    }
}

impl Alike for ClientKind {
    fn equals(&self, other: &ClientKind) -> bool {
        *self == *other
    }
}

impl Alike for Controller {
    fn equals(&self, other: &Controller) -> bool {
        *self == *other
    }
}

impl Alike for Name {
    fn equals(&self, other: &Name) -> bool {
        self.space.equals(&other.space) && self.name.equals(&other.name)
    }
}

impl Alike for SlotKey {
    fn equals(&self, other: &SlotKey) -> bool {
        self.controller == other.controller && self.name.equals(&other.name)
    }
}

impl Alike for Actor {
    fn equals(&self, other: &Actor) -> bool {
        match (self, other) {
            (Actor::Client, Actor::Client) => true,
            (Actor::Reporter, Actor::Reporter) => true,
            (Actor::Controller(one), Actor::Controller(two)) => one.equals(two),
            _ => false,
        }
    }
}

impl Alike for Key {
    fn equals(&self, other: &Key) -> bool {
        self.kind == other.kind && self.name.equals(&other.name)
    }
}
