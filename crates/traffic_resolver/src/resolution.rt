//! What the targets of a Route come to.
ghost use Rattle.std.specs.Prelude.{◌≡◌, ◌<◌, ◌^◌, length, sum_by, IfOk};
ghost use Rattle.std.specs.List.{zip};
ghost use Rattle.resource_types.specs.Lookups.{state};
ghost use Rattle.control_rules.specs.Fits.{AreWhole};
ghost use Rattle.control_rules.specs.Resolution.{stored, resolved, resolution};
ghost use Rattle.controller_parts.specs.Names.{named};
ghost use Rattle.traffic_resolver.specs.Pairs.{pair_percent};
ghost use Rattle.traffic_resolver.specs.Views.{IsResolvable, view_pairs};
ghost use Rattle.traffic_resolver.specs.Causes.{HasCause};

use crate::obstacles::first_hindrance;
use crate::published::{all_published, all_rows};
use crate::targets::found_all;
use control_rules::{Found, Resolved};
use json_tree::{Seq, Text};
use resource_types::{Name, Object, Target};
use std::alloc::{AllocError, Global};
use version_store::Store;

/// A Route, and what its targets were found to mean.
#[derive(Drop)]
pub struct RouteView {
    /// The Route's namespace.
    pub space: Text,
    /// Its simple name.
    pub name: Text,
    /// The domain in which its hosts lie.
    pub domain: Text,
    /// Its targets: 1 to 16, each with a percent, which sum to 100.
    pub targets: Seq<Target>,
    /// What each target means, in the same order.
    pub found: Seq<Found>,
}

/// What the targets come to, each with what it was found to mean at the same place.
#[tactic(auto, unfolding(control_rules::specs::Resolution::resolved))]
pub fn resolve_targets(
    alloc: Global,
    route: &Name,
    domain: &Text,
    targets: &[Target],
    found: &[Found],
) -> Result<Resolved, AllocError>
    requires long { length found.now ≡ length targets.now }
    requires room { sum_by pair_percent (zip targets.now found.now) < 2 ^ 64 }
    ensures { IfOk result (λ answer.
        answer ≡ resolved route.now domain.now (zip targets.now found.now)) }
{
    if let Some(hindered) = first_hindrance(alloc, targets, found)? {
        return Ok(hindered);
    }
    let rows = all_rows(alloc, route, domain, targets, found)?;
    Ok(Resolved::Assigned {
        rows,
        targets: all_published(alloc, route, domain, targets, found)?,
    })
}

/// What the targets of the Route of the name come to, by what stands now.
pub fn resolution_of(
    alloc: Global,
    store: &Store<Object>,
    route: &Name,
    domain: &Text,
    targets: &[Target],
) -> Result<Resolved, AllocError>
    requires { AreWhole targets.now }
    ensures { IfOk result (λ answer.
        answer ≡ resolution stored domain.now (state store.now.entries) route.now targets.now) }
{
    let found = found_all(alloc, store, &route.space, targets)?;
    let answer = resolve_targets(alloc, route, domain, targets, found.as_slice())?;
    Ok(answer)
}

// The same of the targets of a view.
fn resolve_view(alloc: Global, view: &RouteView) -> Result<Resolved, AllocError>
    requires { IsResolvable view.now }
    ensures { IfOk result (λ answer.
        answer
        ≡ resolved (named view.now.space view.now.name) view.now.domain (view_pairs view.now)) }
{
    let route = Name {
        space: view.space.copy(alloc)?,
        name: view.name.copy(alloc)?,
    };
    resolve_targets(
        alloc,
        &route,
        &view.domain,
        view.targets.as_slice(),
        view.found.as_slice(),
    )
}

/// What the targets of the view come to. The first target that isn't ready decides: it is `Missing` where what it names,
/// or means, doesn't stand, and `Unready` where that doesn't count as ready.
pub fn resolve(alloc: Global, view: &RouteView) -> Result<Resolved, AllocError>
    requires { IsResolvable view.now }
    ensures answer { IfOk result (λ answer.
        answer
        ≡ resolved (named view.now.space view.now.name) view.now.domain (view_pairs view.now)) }
    ensures cause { IfOk result (λ answer. HasCause (view_pairs view.now) answer) }
{
    let answer = resolve_view(alloc, view)?;
    Ok(answer)
}
