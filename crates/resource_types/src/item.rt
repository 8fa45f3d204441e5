//! Objects as what the store keeps.
ghost use Rattle.std.specs.Prelude.{◌≡◌, ◌↔◌, IsTrue};
ghost use Rattle.resource_types.specs.Spec.{stamped, same_spec, same_but_stamp, spec_of, is_guarding, no_stamp};
ghost use Rattle.resource_types.specs.ItemLaws.{stamp_alone_of, spec_equivalence_of, same_but_stamp_of, kinds_together_of};

use crate::names::{Actor, Key, Kind, Name};
use crate::objects::{Body, Object};
use json_tree::Alike;
use version_store::{Item, Stamp};

impl Body {
    /// Whether the two have the same spec.
    ///
    /// The spec of a Service is its template and targets, that of a Configuration its template, that of a Revision its
    /// pod spec and its generation, that of a Route its targets, and that of a Health or a Table its whole body. Pins,
    /// the moment of activity and statuses belong to no spec.
    pub fn has_spec_of(&self, other: &Body) -> bool
        ensures { IsTrue result ↔ (spec_of self.now ≡ spec_of other.now) }
    {
        match (self, other) {
            (
                Body::Service {
                    template: a,
                    traffic: s,
                    status: _,
                },
                Body::Service {
                    template: b,
                    traffic: t,
                    status: _,
                },
            ) => a.equals(b) && s.equals(t),
            (
                Body::Configuration {
                    template: a,
                    status: _,
                },
                Body::Configuration {
                    template: b,
                    status: _,
                },
            ) => a.equals(b),
            (
                Body::Revision {
                    spec: a,
                    generation: m,
                    pins: _,
                    active: _,
                    status: _,
                },
                Body::Revision {
                    spec: b,
                    generation: n,
                    pins: _,
                    active: _,
                    status: _,
                },
            ) => a.equals(b) && *m == *n,
            (
                Body::Route {
                    traffic: s,
                    status: _,
                },
                Body::Route {
                    traffic: t,
                    status: _,
                },
            ) => s.equals(t),
            (Body::Health { .. }, Body::Health { .. }) => self.equals(other),
            (Body::Table { .. }, Body::Table { .. }) => self.equals(other),
            _ => false,
        }
    }
}

impl Object {
    /// Whether the two are equal but for their stamps.
    pub fn equals_but_stamp(&self, other: &Object) -> bool
        ensures { IsTrue result ↔ (stamped self.now no_stamp ≡ stamped other.now no_stamp) }
    {
        self.key.equals(&other.key)
            && self.meta.owner.equals(&other.meta.owner)
            && self.meta.labels.equals(&other.meta.labels)
            && self.meta.annotations.equals(&other.meta.annotations)
            && self.body.equals(&other.body)
    }
}

/// A Service and a Route guard, and no other kind: their targets keep Revisions from being removed.
impl Item for Object {
    type Kind = Kind;

    type Key = Key;

    type Name = Name;

    type Actor = Actor;

    ghost key = { λ o. o.key };

    ghost kind_of = { λ k. k.kind };

    ghost stamp = { λ o. o.meta.stamp };

    ghost stamped = { stamped };

    ghost same_spec = { same_spec };

    ghost same = { same_but_stamp };

    ghost guards = { λ o. is_guarding o.key.kind o.body };

    fn key(&self) -> &Key {
        &self.key
    }

    fn kind_of(it: &Key) -> Kind {
        it.kind
    }

    fn stamp(&self) -> Stamp {
        self.meta.stamp
    }

    fn set_stamp(&mut self, to: Stamp) {
        self.meta.stamp = to;
    }

    fn same_spec(&self, other: &Self) -> bool {
        self.body.has_spec_of(&other.body)
    }

    fn same(&self, other: &Self) -> bool {
        self.equals_but_stamp(other)
    }

    fn guards(&self) -> bool {
        match (self.key.kind, &self.body) {
            (Kind::Service, Body::Service { .. }) => true,
            (Kind::Route, Body::Route { .. }) => true,
            _ => false,
        }
    }

    ghost stamp_alone = { stamp_alone_of };

    ghost spec_equivalence = { spec_equivalence_of };

    ghost same_but_stamp = { same_but_stamp_of };

    ghost kinds_together = { kinds_together_of };
}
