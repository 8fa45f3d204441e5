//! The Revisions that the targets mean get the Route's pin, before they are published.
ghost use Rattle.std.specs.Prelude.{◌≡◌, option_map, IfOk};
ghost use Rattle.std.specs.Option.{option_copied};
ghost use Rattle.resource_types.specs.Lookups.{state};
ghost use Rattle.control_rules.specs.Standing.{beside, standing};
ghost use Rattle.control_rules.specs.NextRoute.{pin_lacking, unpinned};
ghost use Rattle.controller_parts.specs.Views.{due_plan};
ghost use Rattle.route_rec.specs.Traffic.{IsSeen, unpinned_among, unpinned_by};

use crate::pins::{is_listed, repinned, with_pin};
use crate::traffic::Traffic;
use control_rules::{Found, Resolved};
use controller_parts::{Due, standing};
use json_tree::{Copied, Text};
use resource_types::{Kind, Name, Object};
use std::alloc::{AllocError, Global};
use version_store::Store;

// The Revision of the name, where it stands and lacks the Route's pin.
fn unpinned<'a>(store: &'a Store<Object>, route: &Name, name: &Text) -> Option<&'a Object>
    ensures { option_copied result
        ≡ unpinned route.now.name
        (standing Kind.Revision (beside route.now name.now) (state store.now.entries)) }
{
    let revision = standing(store, Kind::Revision, &route.space, name)?;
    if is_listed(&route.name, revision.body.pins()) {
        None
    } else {
        Some(revision)
    }
}

// The Revision that a target means, where it lacks the Route's pin.
fn unpinned_by<'a>(store: &'a Store<Object>, route: &Name, found: &Found) -> Option<&'a Object>
    ensures { option_copied result ≡ unpinned_by (state store.now.entries) route.now found.now }
{
    match found {
        Found::Ready { name, .. } => unpinned(store, route, name),
        _ => None,
    }
}

// The first Revision that one of these is and that lacks the Route's pin.
fn unpinned_among<'a>(store: &'a Store<Object>, route: &Name, found: &[Found]) -> Option<&'a Object>
    ensures { option_copied result ≡ unpinned_among (state store.now.entries) route.now found.now }
{
    for meaning in found {
        if let Some(revision) = unpinned_by(store, route, meaning) {
            return Some(revision);
        }
    }
    None
}

/// A Revision that a target means gets the pin that it lacks.
pub fn pin_lacking(
    alloc: Global,
    store: &Store<Object>,
    traffic: &Traffic<'_>,
    now: u64,
) -> Result<Option<Due>, AllocError>
    requires { IsSeen (state store.now.entries) traffic.now }
    ensures { IfOk result (λ due.
        option_map due_plan due ≡ pin_lacking (state store.now.entries) traffic.now.route.now now) }
{
    let Resolved::Assigned { .. } = traffic.resolved else {
        return Ok(None);
    };
    let Some(revision) = unpinned_among(store, traffic.route, traffic.found) else {
        return Ok(None);
    };
    let pins = with_pin(alloc, revision.body.pins(), &traffic.route.name)?;
    Ok(Some(repinned(revision.copy(alloc)?, pins, now)))
}
