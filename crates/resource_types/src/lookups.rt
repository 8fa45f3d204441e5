//! Look-ups: questions on the objects that stand. None takes memory.
ghost use Rattle.std.specs.Prelude.{◌≡◌, ◌&&◌, option_map};
ghost use Rattle.std.specs.List.{list_any};
ghost use Rattle.std.specs.Option.{option_copied, ForSome};
ghost use Rattle.resource_types.specs.Objects.{IsOf, has_been_ready};
ghost use Rattle.resource_types.specs.Spaces.{space_side, space_span};
ghost use Rattle.resource_types.specs.Lookups.{state, find, of_kind, in_space, behind, key_of, is_owner, is_owned_by, owner_stands, current, current_revision, later, latest_created, latest_ready, IsLatest, is_target_on, is_naming, is_target, is_free, is_in_use, is_latest, is_latest_of, is_called, is_given, version_of};

use crate::metadata::Owner;
use crate::names::{Key, Kind, Name};
use crate::objects::Object;
use crate::specification::Target;
use json_tree::Text;
use std::cmp::Ordering;
use version_store::{SearchKey, Span, Store, Walk};

// A key that is searched for by its parts.
#[derive(Drop)]
struct Sought<'a> {
    kind: Kind,
    space: &'a str,
    name: &'a str,
}

impl<'a> SearchKey<Object> for Sought<'a> {
    ghost sought = { λ s. key_of s.kind s.space.now s.name.now };

    fn compare(&self, key: &Key) -> Ordering {
        match key.kind.cmp(&self.kind) {
            Ordering::Equal => match key.name.space.as_str().cmp(self.space) {
                Ordering::Equal => key.name.name.as_str().cmp(self.name),
                other => other,
            },
            other => other,
        }
    }
}

// The keys of a kind in a namespace.
#[derive(Drop)]
struct InSpace<'a> {
    kind: Kind,
    space: &'a str,
}

impl<'a> Span<Object> for InSpace<'a> {
    ghost side = { λ s. space_side s.kind s.space.now };

    fn side(&self, key: &Key) -> Ordering {
        match key.kind.cmp(&self.kind) {
            Ordering::Equal => key.name.space.as_str().cmp(self.space),
            other => other,
        }
    }

    ghost together = { λ s. space_span s.kind s.space.now };
}

/// The object of the kind and the name, if one stands.
pub fn standing<'a>(
    store: &'a Store<Object>,
    kind: Kind,
    space: &str,
    name: &str,
) -> Option<&'a Object>
    ensures value { option_copied result ≡ find (key_of kind space.now name.now) (state store.now.entries) }
    ensures keyed { ForSome (option_copied result) (λ o. o.key ≡ key_of kind space.now name.now) }
{
    store.find(&Sought { kind, space, name })
}

/// The objects of the kind that stand in the namespace, in order of name.
pub fn walk_space<'a>(store: &'a Store<Object>, kind: Kind, space: &str) -> Walk<'a, Object>
    ensures { result ≡ in_space space.now (of_kind kind (state store.now.entries)) }
{
    store.walk_in(&InSpace { kind, space })
}

/// The objects of the kind that stand behind a namespace and simple name, in order of name.
pub fn walk_after<'a>(
    store: &'a Store<Object>,
    kind: Kind,
    space: &str,
    name: &str,
) -> Walk<'a, Object>
    ensures { result ≡ behind (key_of kind space.now name.now) (of_kind kind (state store.now.entries)) }
{
    store.walk_after(kind, &Sought { kind, space, name })
}

impl Object {
    /// Whether the owner is this object, by kind, name and uid.
    pub fn is_owner(&self, owner: &Owner) -> bool
        ensures { result ≡ is_owner self.now owner.now }
    {
        owner.kind == self.key.kind
            && owner.name == self.key.name.name
            && owner.uid == self.meta.stamp.uid
    }

    /// Whether the other is a Revision that this object owns, by kind, name and uid, in its namespace.
    pub fn owns(&self, revision: &Object) -> bool
        ensures { result ≡ is_owned_by self.now revision.now }
    {
        if !revision.is_of(Kind::Revision) || revision.key.name.space != self.key.name.space {
            return false;
        }
        match &revision.meta.owner {
            Some(owner) => self.is_owner(owner),
            None => false,
        }
    }
}

/// Whether an object of the owner's kind, name and uid stands in the namespace.
pub fn owner_stands(store: &Store<Object>, space: &Text, owner: &Owner) -> bool
    ensures { result ≡ owner_stands (state store.now.entries) space.now owner.now }
{
    match standing(store, owner.kind, space.as_str(), owner.name.as_str()) {
        Some(object) => object.is_of(owner.kind) && object.meta.stamp.uid == owner.uid,
        None => false,
    }
}

/// The Revision of that simple name that the Configuration owns and that has its generation.
pub fn current_revision<'a>(
    store: &'a Store<Object>,
    configuration: &Object,
    name: &str,
) -> Option<&'a Object>
    ensures { option_copied result ≡ current_revision (state store.now.entries) configuration.now name.now }
{
    let space = configuration.key.name.space.as_str();
    let revision = standing(store, Kind::Revision, space, name)?;
    if configuration.owns(revision)
        && revision.body.generation() == configuration.meta.stamp.generation
    {
        Some(revision)
    } else {
        None
    }
}

/// The version of the Revision of that simple name that the Configuration owns and that has its generation.
pub fn current(store: &Store<Object>, configuration: &Object, name: &Text) -> Option<u64>
    requires { IsOf Kind.Configuration configuration.now }
    ensures { result ≡ current (state store.now.entries) configuration.now name.now }
{
    Some(
        current_revision(store, configuration, name.as_str())?
            .meta
            .stamp
            .version,
    )
}

// The best so far, or the Revision where it counts and is newer.
fn later<'a>(counted: bool, best: Option<&'a Object>, revision: &'a Object) -> Option<&'a Object>
    ensures { option_copied result ≡ later counted (option_copied best.entry) revision.now }
{
    if !counted {
        return best;
    }
    match best {
        Some(other) => {
            if other.body.generation() < revision.body.generation() {
                Some(revision)
            } else {
                best
            }
        }
        None => Some(revision),
    }
}

/// Of the Revisions that the Configuration owns by kind, name and uid, the one of greatest generation, and of equal ones
/// the first by name.
pub fn newest_owned<'a>(store: &'a Store<Object>, configuration: &Object) -> Option<&'a Object>
    ensures value { option_copied result ≡ latest_created (state store.now.entries) configuration.now }
    ensures latest { IsLatest (is_owned_by configuration.now) (state store.now.entries) (latest_created (state store.now.entries) configuration.now) }
{
    let space = configuration.key.name.space.as_str();
    let revisions = walk_space(store, Kind::Revision, space);
    let mut best = None;
    for place in 0..revisions.len() {
        let revision = revisions.at(place);
        best = later(configuration.owns(revision), best, revision);
    }
    best
}

// Whether it is a Revision that the Configuration owns and that was ready once.
fn owns_ready(configuration: &Object, revision: &Object) -> bool
    ensures { result ≡ (is_owned_by configuration.now revision.now && has_been_ready revision.now) }
{
    configuration.owns(revision) && revision.has_been_ready()
}

/// Of the Revisions that the Configuration owns by kind, name and uid and whose status has `HasBeenReady` True, the one of
/// greatest generation, and of equal ones the first by name.
///
/// A Revision that was ready and no longer is still counts: the answer does not fall back.
pub fn newest_ready<'a>(store: &'a Store<Object>, configuration: &Object) -> Option<&'a Object>
    ensures value { option_copied result ≡ latest_ready (state store.now.entries) configuration.now }
    ensures latest { IsLatest (λ r. is_owned_by configuration.now r && has_been_ready r) (state store.now.entries) (latest_ready (state store.now.entries) configuration.now) }
{
    let space = configuration.key.name.space.as_str();
    let revisions = walk_space(store, Kind::Revision, space);
    let mut best = None;
    for place in 0..revisions.len() {
        let revision = revisions.at(place);
        best = later(owns_ready(configuration, revision), best, revision);
    }
    best
}

/// The version of the latest created Revision, which is [`newest_owned`].
pub fn latest_created(store: &Store<Object>, configuration: &Object) -> Option<u64>
    requires { IsOf Kind.Configuration configuration.now }
    ensures value { result ≡ option_map version_of (latest_created (state store.now.entries) configuration.now) }
    ensures latest { IsLatest (is_owned_by configuration.now) (state store.now.entries) (latest_created (state store.now.entries) configuration.now) }
{
    Some(newest_owned(store, configuration)?.meta.stamp.version)
}

/// The version of the latest ready Revision, which is [`newest_ready`].
pub fn latest_ready(store: &Store<Object>, configuration: &Object) -> Option<u64>
    requires { IsOf Kind.Configuration configuration.now }
    ensures value { result ≡ option_map version_of (latest_ready (state store.now.entries) configuration.now) }
    ensures latest { IsLatest (λ r. is_owned_by configuration.now r && has_been_ready r) (state store.now.entries) (latest_ready (state store.now.entries) configuration.now) }
{
    Some(newest_ready(store, configuration)?.meta.stamp.version)
}

// Whether one of the targets is on the Revision of the simple name.
fn has_target(targets: &[Target], name: &Text) -> bool
    ensures { result ≡ list_any (is_target_on name.now) targets.now }
{
    targets.iter().any(|target| !target.revision.is_empty() && target.revision == *name)
}

// Whether the object is of the kind, in the Revision's namespace, and a target of it names the Revision.
fn is_naming(kind: Kind, name: &Name, object: &Object) -> bool
    ensures { result ≡ is_naming kind name.now object.now }
{
    object.is_of(kind)
        && object.key.name.space == name.space
        && has_target(object.body.targets(), &name.name)
}

// Whether a target of an object of the kind names the Revision.
fn is_target_of(store: &Store<Object>, kind: Kind, name: &Name) -> bool
    ensures { result ≡ list_any (is_naming kind name.now) (of_kind kind (state store.now.entries)) }
{
    let objects = walk_space(store, kind, name.space.as_str());
    for place in 0..objects.len() {
        if is_naming(kind, name, objects.at(place)) {
            return true;
        }
    }
    false
}

// Whether a target of a Service or Route names the Revision.
fn is_target(store: &Store<Object>, name: &Name) -> bool
    ensures { result ≡ is_target (state store.now.entries) name.now }
{
    is_target_of(store, Kind::Service, name) || is_target_of(store, Kind::Route, name)
}

/// Whether a Revision of the name stands without pins, and no target of a Service or Route that stands in its
/// namespace names it.
pub fn is_free(store: &Store<Object>, name: &Name) -> bool
    ensures { result ≡ is_free (state store.now.entries) name.now }
{
    match standing(
        store,
        Kind::Revision,
        name.space.as_str(),
        name.name.as_str(),
    ) {
        Some(revision) => {
            revision.is_of(Kind::Revision)
                && revision.body.pins().is_empty()
                && !is_target(store, name)
        }
        None => false,
    }
}

fn is_called(name: &Text, object: Option<&Object>) -> bool
    ensures { result ≡ is_called name.now (option_copied object.entry) }
{
    match object {
        Some(object) => object.key.name.name == *name,
        None => false,
    }
}

// Whether the Revision of the name is latest created or latest ready of the Configuration.
fn is_latest(store: &Store<Object>, name: &Text, configuration: &Object) -> bool
    ensures { result ≡ is_latest (state store.now.entries) name.now configuration.now }
{
    is_called(name, newest_owned(store, configuration))
        || is_called(name, newest_ready(store, configuration))
}

// Whether the owner is a Configuration that stands, of which the Revision of the name is a latest one.
fn is_latest_of(store: &Store<Object>, name: &Name, owner: &Owner) -> bool
    ensures { result ≡ is_latest_of (state store.now.entries) name.now owner.now }
{
    match standing(
        store,
        Kind::Configuration,
        name.space.as_str(),
        owner.name.as_str(),
    ) {
        Some(configuration) => {
            configuration.is_of(Kind::Configuration)
                && configuration.is_owner(owner)
                && is_latest(store, &name.name, configuration)
        }
        None => false,
    }
}

fn is_latest_of_its_owner(store: &Store<Object>, name: &Name, revision: &Object) -> bool
    ensures { result ≡ is_given (is_latest_of (state store.now.entries) name.now) revision.now.meta.owner }
{
    match &revision.meta.owner {
        Some(owner) => is_latest_of(store, name, owner),
        None => false,
    }
}

/// Whether a Revision of the name stands and is not free, or is the latest created or the latest ready of the
/// Configuration that owns it and stands.
pub fn in_use(store: &Store<Object>, name: &Name) -> bool
    ensures { result ≡ is_in_use (state store.now.entries) name.now }
{
    match standing(
        store,
        Kind::Revision,
        name.space.as_str(),
        name.name.as_str(),
    ) {
        Some(revision) => {
            revision.is_of(Kind::Revision)
                && (!is_free(store, name) || is_latest_of_its_owner(store, name, revision))
        }
        None => false,
    }
}
