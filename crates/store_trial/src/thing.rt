//! A small item: sources, and copies of them.
ghost use Rattle.std.specs.Prelude.{◌≡◌, Bool};
ghost use Rattle.store_trial.specs.Thing.{is_source, same_thing, same_spec_of, with_stamp, stamp_alone_of, spec_equivalence_of, same_but_stamp_of};
ghost use Rattle.store_trial.specs.KeyOrder.{kinds_together_of};

use std::cmp::Ordering;
use version_store::{Item, SearchKey, Stamp};

/// The kinds of things.
#[derive(Clone, Copy, Debug, PartialEq, Eq, PartialOrd, Ord)]
pub enum Kind {
    Source,
    Copy,
}

/// The key of a thing: its kind first, then its name.
#[derive(Clone, Copy, Debug, PartialEq, Eq, PartialOrd, Ord)]
pub struct Key {
    pub kind: Kind,
    pub name: u64,
}

/// Who writes things.
#[derive(Clone, Copy, Debug, PartialEq, Eq)]
pub enum Actor {
    Client,
    Copier,
}

/// A thing has a spec and a status. Sources guard.
#[derive(Drop)]
pub struct Thing {
    pub key: Key,
    pub stamp: Stamp,
    pub spec: u64,
    pub status: u64,
}

impl Item for Thing {
    type Kind = Kind;

    type Key = Key;

    type Name = u64;

    type Actor = Actor;

    ghost key = { λ o. o.key };

    ghost kind_of = { λ k. k.kind };

    ghost stamp = { λ o. o.stamp };

    ghost stamped = { with_stamp };

    ghost same_spec = { same_spec_of };

    ghost same = { same_thing };

    ghost guards = { λ o. is_source o.key.kind };

    fn key(&self) -> &Key {
        &self.key
    }

    fn kind_of(it: &Key) -> Kind {
        it.kind
    }

    fn stamp(&self) -> Stamp {
        self.stamp
    }

    fn set_stamp(&mut self, to: Stamp) {
        self.stamp = to;
    }

    fn same_spec(&self, other: &Self) -> bool {
        self.spec == other.spec
    }

    fn same(&self, other: &Self) -> bool {
        self.key == other.key && self.spec == other.spec && self.status == other.status
    }

    fn guards(&self) -> bool {
        self.key.kind == Kind::Source
    }

    ghost stamp_alone = { stamp_alone_of };

    ghost spec_equivalence = { spec_equivalence_of };

    ghost same_but_stamp = { same_but_stamp_of };

    ghost kinds_together = { kinds_together_of };
}

/// The parts of a key, as what a search is for.
#[derive(Drop)]
pub struct KeyParts<'a> {
    pub kind: Kind,
    pub name: &'a u64,
}

impl SearchKey<Thing> for KeyParts<'_> {
    ghost sought = { λ parts. record { kind = parts.kind; name = parts.name.now } };

    fn compare(&self, key: &Key) -> Ordering {
        key.kind.cmp(&self.kind).then(key.name.cmp(self.name))
    }
}
