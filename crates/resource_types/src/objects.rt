//! Objects of the six kinds.
ghost use Rattle.std.specs.Prelude.{◌≡◌, ◌↔◌, IsTrue, IsSome, unwrap_or};
ghost use Rattle.std.specs.Option.{option_copied};
ghost use Rattle.resource_types.specs.Objects.{IsOf, is_of, is_of_client, kind_of_body, pins_of, generation_of, targets_of, no_template, template_of, no_status, status_of, with_status, has_condition, has_been_ready};

use crate::conditions::{CondName, Condition, Part, Truth};
use crate::metadata::Meta;
use crate::names::{Key, Kind};
use crate::specification::{PodSpec, Row, Target, Template};
use crate::status::ObjectStatus;
use json_tree::{Alike, Copied, Seq, Text};
use std::alloc::{AllocError, Global};

/// What an object of each kind has of its own.
#[derive(Debug, Drop, PartialEq)]
pub enum Body {
    /// What runs, and who gets the requests.
    Service {
        /// What the Service's Revisions are made of.
        template: Template,
        /// The targets of the Service's Route. One without a Revision is on the Service's Configuration.
        traffic: Seq<Target>,
        /// What was found.
        status: ObjectStatus,
    },
    /// What runs.
    Configuration {
        /// What the Configuration's Revisions are made of.
        template: Template,
        /// What was found.
        status: ObjectStatus,
    },
    /// What a template said once.
    Revision {
        /// What runs.
        spec: PodSpec,
        /// The generation of the Configuration that the Revision was made for.
        generation: u64,
        /// The simple names of the Routes that hold the Revision, in order of bytes.
        pins: Seq<Text>,
        /// The moment at which the pins last became empty or stopped being empty, in whole seconds since 1970; none before.
        active: Option<u64>,
        /// What was found.
        status: ObjectStatus,
    },
    /// Who gets the requests of a host.
    Route {
        /// The targets.
        traffic: Seq<Target>,
        /// What was found.
        status: ObjectStatus,
    },
    /// What was last reported of the Revision of the same name.
    Health {
        /// The uid of the Revision that the report was on.
        uid: u64,
        /// Whether what the Revision runs on is there.
        resources: Part,
        /// Whether the Revision's container answers.
        container: Part,
        /// Whether both parts were True in this report or an earlier one on that uid.
        ever: bool,
    },
    /// What is published for the Route of the same name.
    Table {
        /// The uid of the Route.
        route: u64,
        /// Which Revisions get the requests of which host.
        rows: Seq<Row>,
        /// The targets that the rows were made of, with the names of their Revisions.
        targets: Seq<Target>,
    },
}

/// An object: what it is found by, what every object has, and what its kind has.
///
/// It is of a kind exactly where both its key and its body are of that kind.
#[derive(Debug, Drop, PartialEq)]
pub struct Object {
    /// What the object is found by.
    pub key: Key,
    /// What every object has.
    pub meta: Meta,
    /// What the object's kind has.
    pub body: Body,
}

impl Body {
    /// The kind that it is a body of.
    pub fn kind(&self) -> Kind
        ensures { result ≡ kind_of_body self.now }
    {
        match self {
            Body::Service { .. } => Kind::Service,
            Body::Configuration { .. } => Kind::Configuration,
            Body::Revision { .. } => Kind::Revision,
            Body::Route { .. } => Kind::Route,
            Body::Health { .. } => Kind::Health,
            Body::Table { .. } => Kind::Table,
        }
    }

    /// The simple names of the Routes that hold a Revision; none of another kind.
    pub fn pins(&self) -> &[Text]
        ensures { result.now ≡ pins_of self.now }
    {
        match self {
            Body::Revision { pins, .. } => pins.as_slice(),
            _ => &[],
        }
    }

    /// The generation of the Configuration that a Revision was made for; 0 of another kind.
    pub fn generation(&self) -> u64
        ensures { result ≡ generation_of self.now }
    {
        match self {
            Body::Revision { generation, .. } => *generation,
            _ => 0,
        }
    }

    /// The targets that a Service or a Route asks for; none of another kind.
    pub fn targets(&self) -> &[Target]
        ensures { result.now ≡ targets_of self.now }
    {
        match self {
            Body::Service { traffic, .. } => traffic.as_slice(),
            Body::Route { traffic, .. } => traffic.as_slice(),
            _ => &[],
        }
    }

    /// The template of a Service or a Configuration.
    pub fn template(&self) -> Option<&Template>
        ensures value { unwrap_or (option_copied result) no_template ≡ template_of self.now }
        ensures service { kind_of_body self.now ≡ Kind.Service → IsSome result }
        ensures configuration { kind_of_body self.now ≡ Kind.Configuration → IsSome result }
    {
        match self {
            Body::Service { template, .. } => Some(template),
            Body::Configuration { template, .. } => Some(template),
            _ => None,
        }
    }

    /// The status; none of a Health or a Table.
    pub fn status(&self) -> Option<&ObjectStatus>
        ensures { unwrap_or (option_copied result) no_status ≡ status_of self.now }
    {
        match self {
            Body::Service { status, .. } => Some(status),
            Body::Configuration { status, .. } => Some(status),
            Body::Revision { status, .. } => Some(status),
            Body::Route { status, .. } => Some(status),
            _ => None,
        }
    }

    /// The conditions in the status; none of a Health or a Table.
    pub fn conditions(&self) -> &[Condition]
        ensures { result.now ≡ (status_of self.now).conditions }
    {
        match self.status() {
            Some(status) => status.conditions.as_slice(),
            None => &[],
        }
    }
}

/// The body with another status, where it has one: a Health and a Table stay as they are.
pub fn with_status(body: Body, new: ObjectStatus) -> Body
    ensures { result ≡ with_status new body }
{
    match body {
        Body::Service {
            template,
            traffic,
            status: _,
        } => Body::Service {
            template,
            traffic,
            status: new,
        },
        Body::Configuration {
            template,
            status: _,
        } => Body::Configuration {
            template,
            status: new,
        },
        Body::Revision {
            spec,
            generation,
            pins,
            active,
            status: _,
        } => Body::Revision {
            spec,
            generation,
            pins,
            active,
            status: new,
        },
        Body::Route { traffic, status: _ } => Body::Route {
            traffic,
            status: new,
        },
        other => other,
    }
}

impl Object {
    /// Whether the object is of the kind, in its key and in its body.
    pub fn is_of(&self, kind: Kind) -> bool
        ensures value { result ≡ is_of kind self.now }
        ensures meaning { IsTrue result ↔ IsOf kind self.now }
    {
        self.key.kind == kind && self.body.kind() == kind
    }

    /// Whether the object is a Service, a Configuration or a Route: those that clients create and replace.
    pub fn is_of_client(&self) -> bool
        ensures { result ≡ is_of_client self.now }
    {
        self.is_of(Kind::Service) || self.is_of(Kind::Configuration) || self.is_of(Kind::Route)
    }

    /// Whether the status has the condition with that truth.
    pub fn has_condition(&self, name: CondName, truth: Truth) -> bool
        ensures { result ≡ has_condition name truth self.now }
    {
        self.body.conditions().iter().any(|condition| condition.name == name
            && condition.truth == truth)
    }

    /// Whether the status has `HasBeenReady` True.
    pub fn has_been_ready(&self) -> bool
        ensures { result ≡ has_been_ready self.now }
    {
        self.has_condition(CondName::HasBeenReady, Truth::True)
    }
}

impl Copied for Body {
    fn copy(&self, alloc: Global) -> Result<Body, AllocError> {
        match self {
            Body::Service {
                template,
                traffic,
                status,
            } => Ok(Body::Service {
                template: template.copy(alloc)?,
                traffic: traffic.copy(alloc)?,
                status: status.copy(alloc)?,
            }),
            Body::Configuration { template, status } => Ok(Body::Configuration {
                template: template.copy(alloc)?,
                status: status.copy(alloc)?,
            }),
            Body::Revision {
                spec,
                generation,
                pins,
                active,
                status,
            } => Ok(Body::Revision {
                spec: spec.copy(alloc)?,
                generation: *generation,
                pins: pins.copy(alloc)?,
                active: *active,
                status: status.copy(alloc)?,
            }),
            Body::Route { traffic, status } => Ok(Body::Route {
                traffic: traffic.copy(alloc)?,
                status: status.copy(alloc)?,
            }),
            Body::Health {
                uid,
                resources,
                container,
                ever,
            } => Ok(Body::Health {
                uid: *uid,
                resources: resources.copy(alloc)?,
                container: container.copy(alloc)?,
                ever: *ever,
            }),
            Body::Table {
                route,
                rows,
                targets,
            } => Ok(Body::Table {
                route: *route,
                rows: rows.copy(alloc)?,
                targets: targets.copy(alloc)?,
            }),
        }
    }
}

impl Copied for Object {
    fn copy(&self, alloc: Global) -> Result<Object, AllocError> {
        Ok(Object {
            key: self.key.copy(alloc)?,
            meta: self.meta.copy(alloc)?,
            body: self.body.copy(alloc)?,
        })
    }
}

impl Alike for Body {
    fn equals(&self, other: &Body) -> bool {
        match (self, other) {
            (
                Body::Service {
                    template: a,
                    traffic: s,
                    status: v,
                },
                Body::Service {
                    template: b,
                    traffic: t,
                    status: w,
                },
            ) => a.equals(b) && s.equals(t) && v.equals(w),
            (
                Body::Configuration {
                    template: a,
                    status: v,
                },
                Body::Configuration {
                    template: b,
                    status: w,
                },
            ) => a.equals(b) && v.equals(w),
            (
                Body::Revision {
                    spec: a,
                    generation: m,
                    pins: p,
                    active: x,
                    status: v,
                },
                Body::Revision {
                    spec: b,
                    generation: n,
                    pins: q,
                    active: y,
                    status: w,
                },
            ) => a.equals(b) && *m == *n && p.equals(q) && x.equals(y) && v.equals(w),
            (
                Body::Route {
                    traffic: s,
                    status: v,
                },
                Body::Route {
                    traffic: t,
                    status: w,
                },
            ) => s.equals(t) && v.equals(w),
            (
                Body::Health {
                    uid: m,
                    resources: a,
                    container: s,
                    ever: x,
                },
                Body::Health {
                    uid: n,
                    resources: b,
                    container: t,
                    ever: y,
                },
            ) => *m == *n && a.equals(b) && s.equals(t) && *x == *y,
            (
                Body::Table {
                    route: m,
                    rows: a,
                    targets: s,
                },
                Body::Table {
                    route: n,
                    rows: b,
                    targets: t,
                },
            ) => *m == *n && a.equals(b) && s.equals(t),
            _ => false,
        }
    }
}

impl Alike for Object {
    fn equals(&self, other: &Object) -> bool {
        self.key.equals(&other.key)
            && self.meta.equals(&other.meta)
            && self.body.equals(&other.body)
    }
}
