//! What a target means, by what stands in the Route's namespace.
ghost use Rattle.std.specs.Prelude.{◌≡◌, cond, map, IfOk};
ghost use Rattle.std.specs.Option.{option_copied};
ghost use Rattle.resource_types.specs.Objects.{status_of};
ghost use Rattle.resource_types.specs.Lookups.{state};
ghost use Rattle.control_rules.specs.Standing.{beside, standing};
ghost use Rattle.control_rules.specs.Resolution.{stored, found_revision, found_latest, found_of};
ghost use Rattle.traffic_resolver.specs.Pairs.{found_in, in_space};

use control_rules::Found;
use controller_parts::{is_blank, standing};
use json_tree::{Seq, Text};
use resource_types::{CondName, Kind, Object, Target, Truth};
use std::alloc::{AllocError, Global};
use version_store::Store;

// The Revision is ready where it counts.
fn ready_where(
    alloc: Global,
    counts: bool,
    name: &Text,
    revision: &Object,
) -> Result<Found, AllocError>
    ensures { IfOk result (λ found.
        found
        ≡ cond counts (Found.Ready name.now revision.now.meta.stamp.uid) Found.RevisionUnready) }
{
    if !counts {
        return Ok(Found::RevisionUnready);
    }
    Ok(Found::Ready {
        name: name.copy(alloc)?,
        uid: revision.meta.stamp.uid,
    })
}

// A Revision that is named must be ready now.
fn found_named(
    alloc: Global,
    store: &Store<Object>,
    space: &Text,
    name: &Text,
) -> Result<Found, AllocError>
    ensures { IfOk result (λ found.
        found
        ≡ found_revision stored.good name.now
        (standing Kind.Revision (beside (in_space space.now) name.now) (state store.now.entries))) }
{
    match standing(store, Kind::Revision, space, name) {
        Some(revision) => {
            let counts = revision.has_condition(CondName::Ready, Truth::True);
            ready_where(alloc, counts, name, revision)
        }
        None => Ok(Found::RevisionAbsent),
    }
}

// The latest ready Revision of a Configuration must have been ready once.
fn found_latest(
    alloc: Global,
    store: &Store<Object>,
    space: &Text,
    name: &Text,
) -> Result<Found, AllocError>
    ensures { IfOk result (λ found.
        found ≡ found_latest stored (state store.now.entries) (in_space space.now) name.now) }
{
    if is_blank(name) {
        return Ok(Found::ConfigurationUnready);
    }
    match standing(store, Kind::Revision, space, name) {
        Some(revision) => ready_where(alloc, revision.has_been_ready(), name, revision),
        None => Ok(Found::RevisionAbsent),
    }
}

// A Configuration means the latest ready Revision that its status names.
fn found_configuration(
    alloc: Global,
    store: &Store<Object>,
    space: &Text,
    configuration: &Object,
) -> Result<Found, AllocError>
    ensures { IfOk result (λ found.
        found
        ≡ found_latest stored (state store.now.entries) (in_space space.now) (status_of configuration.now.body).ready) }
{
    match configuration.body.status() {
        Some(status) => found_latest(alloc, store, space, &status.ready),
        None => Ok(Found::ConfigurationUnready),
    }
}

/// What a target of a Route in the namespace means: the Revision that it names, where that is ready now; or else the
/// latest ready one of its Configuration, where that was ready once.
#[tactic(auto, unfolding(control_rules::specs::Resolution::found_of))]
pub fn found_of(
    alloc: Global,
    store: &Store<Object>,
    space: &Text,
    target: &Target,
) -> Result<Found, AllocError>
    ensures { IfOk result (λ found.
        found ≡ found_in (state store.now.entries) space.now target.now) }
{
    if !is_blank(&target.revision) {
        return found_named(alloc, store, space, &target.revision);
    }
    match standing(store, Kind::Configuration, space, &target.configuration) {
        Some(configuration) => found_configuration(alloc, store, space, configuration),
        None => Ok(Found::ConfigurationAbsent),
    }
}

/// What each of the targets means, in their order.
pub fn found_all(
    alloc: Global,
    store: &Store<Object>,
    space: &Text,
    targets: &[Target],
) -> Result<Seq<Found>, AllocError>
    ensures { IfOk result (λ found.
        found ≡ map (found_in (state store.now.entries) space.now) targets.now) }
{
    let mut found = Seq::with_capacity(alloc, targets.len())?;
    for target in targets {
        found.push(found_of(alloc, store, space, target)?)?;
    }
    Ok(found)
}
