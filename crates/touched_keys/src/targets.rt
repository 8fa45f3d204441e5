//! Tests of targets: what names a Revision, and what the targets of a Route read.
ghost use Rattle.std.specs.Prelude.{◌≡◌, ◌&&◌, ◌++◌, bytes_eq, not};
ghost use Rattle.std.specs.List.{list_any};
ghost use Rattle.std.specs.Option.{option_copied};
ghost use Rattle.resource_types.specs.Lookups.{state, is_given, is_naming, is_target_on};
ghost use Rattle.control_rules.specs.Standing.{listed, read};
ghost use Rattle.control_touches.specs.Touches.{is_changed, is_renamed, is_retargeted, is_retargeted_at, is_under, targets_in, targets_at, is_on, meant_name, is_meaning};
ghost use Rattle.touched_keys.specs.Changes.{route_targets};

use crate::names::is_under;
use controller_parts::standing;
use json_tree::Text;
use resource_types::{Kind, Name, Object, Target};
use version_store::Store;

/// Whether one of two tests holds and the other doesn't.
#[tactic(auto, unfolding(control_touches::specs::Touches::is_changed))]
pub fn is_changed(before: bool, now: bool) -> bool
    ensures { result ≡ is_changed before now }
{
    if before { !now } else { now }
}

// Whether one of the targets is on the Revision of the simple name.
fn has_target(targets: &[Target], name: &Text) -> bool
    ensures { result ≡ list_any (is_target_on name.now) targets.now }
{
    targets.iter().any(|target| !target.revision.is_empty() && target.revision == *name)
}

// Whether what is there is of the kind, in the namespace, and a target of it names the Revision.
fn is_naming(kind: Kind, space: &Text, name: &Text, object: Option<&Object>) -> bool
    ensures { result ≡ is_given (is_naming kind (record { space = space.now; name = name.now })) (option_copied object.entry) }
{
    match object {
        Some(object) => {
            object.is_of(kind)
                && object.key.name.space == *space
                && has_target(object.body.targets(), name)
        }
        None => false,
    }
}

// Whether a target of what is there, of the kind, named the Revision and does no more, or does now.
#[tactic(auto, unfolding(control_touches::specs::Touches::is_renamed))]
fn is_renamed(
    kind: Kind,
    space: &Text,
    name: &Text,
    old: Option<&Object>,
    new: Option<&Object>,
) -> bool
    ensures { result ≡ is_renamed kind (record { space = space.now; name = name.now }) (option_copied old.entry) (option_copied new.entry) }
{
    is_changed(
        is_naming(kind, space, name, old),
        is_naming(kind, space, name, new),
    )
}

/// Whether a target of a Service or a Route named the Revision and does no more, or does now.
#[tactic(auto, unfolding(control_touches::specs::Touches::is_retargeted))]
pub fn is_retargeted(space: &Text, name: &Text, old: Option<&Object>, new: Option<&Object>) -> bool
    ensures { result ≡ is_retargeted (record { space = space.now; name = name.now }) (option_copied old.entry) (option_copied new.entry) }
{
    is_renamed(Kind::Service, space, name, old, new)
        || is_renamed(Kind::Route, space, name, old, new)
}

/// The targets of what is there, if anything is.
#[tactic(auto, unfolding(control_touches::specs::Touches::targets_in))]
pub fn targets_in<'a>(object: Option<&'a Object>) -> &'a [Target]
    ensures { result.now ≡ targets_in (option_copied object.entry) }
{
    match object {
        Some(object) => object.body.targets(),
        None => &[],
    }
}

// Whether that is so of a Revision under the name that the target names.
fn is_target_under(
    owner: &Name,
    old: Option<&Object>,
    new: Option<&Object>,
    target: &Target,
) -> bool
    ensures { result ≡ (is_under owner.now.name target.now.revision && is_retargeted (record { space = owner.now.space; name = target.now.revision }) (option_copied old.entry) (option_copied new.entry)) }
{
    is_under(&owner.name, &target.revision)
        && is_retargeted(&owner.space, &target.revision, old, new)
}

// Whether that is so of one of these targets.
fn is_any_retargeted(
    targets: &[Target],
    owner: &Name,
    old: Option<&Object>,
    new: Option<&Object>,
) -> bool
    ensures { result ≡ list_any (λ t. is_under owner.now.name t.revision && is_retargeted (record { space = owner.now.space; name = t.revision }) (option_copied old.entry) (option_copied new.entry)) targets.now }
{
    targets
        .iter()
        .any(|target| is_target_under(owner, old, new, target))
}

/// Whether a target of a Service or a Route named a Revision under the name and does no more, or does now.
#[tactic(auto, unfolding(control_touches::specs::Touches::is_retargeted_at))]
pub fn is_retargeted_under(owner: &Name, old: Option<&Object>, new: Option<&Object>) -> bool
    ensures { result ≡ is_retargeted_at owner.now.space (is_under owner.now.name) (option_copied old.entry) (option_copied new.entry) }
{
    is_any_retargeted(targets_in(old), owner, old, new)
        || is_any_retargeted(targets_in(new), owner, old, new)
}

/// The targets of the Route of the name.
#[tactic(auto, unfolding(control_touches::specs::Touches::targets_at))]
pub fn targets_at<'a>(store: &'a Store<Object>, route: &Name) -> &'a [Target]
    ensures { result.now ≡ targets_at (state store.now.entries) route.now }
{
    targets_in(standing(store, Kind::Route, &route.space, &route.name))
}

/// The targets of an object, where it is a Route.
#[tactic(auto, unfolding(control_touches::specs::Touches::targets_in))]
pub fn route_targets(object: &Object) -> &[Target]
    ensures { result.now ≡ route_targets object.now }
{
    if object.is_of(Kind::Route) {
        object.body.targets()
    } else {
        &[]
    }
}

/// Whether one of the targets is on the Configuration.
#[tactic(auto, unfolding(control_touches::specs::Touches::is_on))]
pub fn is_any_on(targets: &[Target], name: &Text) -> bool
    ensures { result ≡ list_any (is_on name.now) targets.now }
{
    targets.iter().any(|target| target.revision.is_empty() && target.configuration == *name)
}

// Whether the target means the Revision: it names it, or it is the latest ready one of its Configuration.
#[tactic(auto, unfolding(control_touches::specs::Touches::is_meaning, control_touches::specs::Touches::meant_name))]
fn is_meaning(store: &Store<Object>, route: &Name, name: &Text, target: &Target) -> bool
    ensures { result ≡ is_meaning (state store.now.entries) route.now name.now target.now }
{
    if !target.revision.is_empty() {
        return target.revision == *name;
    }
    match standing(
        store,
        Kind::Configuration,
        &route.space,
        &target.configuration,
    ) {
        Some(configuration) => match configuration.body.status() {
            Some(status) => status.ready == *name,
            None => name.is_empty(),
        },
        None => name.is_empty(),
    }
}

/// Whether one of the targets means the Revision.
pub fn is_any_meaning(store: &Store<Object>, route: &Name, name: &Text, targets: &[Target]) -> bool
    ensures { result ≡ list_any (is_meaning (state store.now.entries) route.now name.now) targets.now }
{
    targets
        .iter()
        .any(|target| is_meaning(store, route, name, target))
}
