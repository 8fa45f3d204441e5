//! The chain of the differences, and the controller.
ghost use Rattle.std.specs.Prelude.{◌≡◌, option_map, IfOk};
ghost use Rattle.resource_types.specs.Lookups.{state};
ghost use Rattle.control_rules.specs.Fits.{RouteFits};
ghost use Rattle.control_rules.specs.NextRoute.{route_next};
ghost use Rattle.controller_parts.specs.Views.{due_plan};
ghost use Rattle.route_rec.specs.Traffic.{IsSeen, next_by_targets};
ghost use Rattle.route_rec.specs.Laws.{route_makeable_of};

use crate::lacking::pin_lacking;
use crate::removals::{foreign, orphaned};
use crate::spare::pin_spare;
use crate::statuses::status_differs;
use crate::tables::table_differs;
use crate::traffic::Traffic;
use controller_parts::{Due, plan_of, standing};
use json_tree::Text;
use resource_types::{Kind, Name, Object};
use std::alloc::{AllocError, Global};
use traffic_resolver::{found_all, resolve_targets};
use version_store::{Plan, Reconciler, Store};

// What is due by what the look saw: the pins before the Table, the Table before the status.
fn due_by(
    alloc: Global,
    store: &Store<Object>,
    traffic: &Traffic<'_>,
    now: u64,
) -> Result<Option<Due>, AllocError>
    requires { IsSeen (state store.now.entries) traffic.now }
    ensures { IfOk result (λ due. option_map due_plan due
        ≡ next_by_targets traffic.now.domain.now (state store.now.entries) traffic.now.route.now
        now) }
{
    if let Some(due) = pin_lacking(alloc, store, traffic, now)? {
        return Ok(Some(due));
    }
    if let Some(due) = table_differs(alloc, store, traffic)? {
        return Ok(Some(due));
    }
    let due = status_differs(alloc, store, traffic, now)?;
    Ok(due)
}

// What is due to a Route that stands, and by its targets.
fn due_to_route(
    alloc: Global,
    store: &Store<Object>,
    domain: &Text,
    route: &Name,
    now: u64,
) -> Result<Option<Due>, AllocError>
    requires { RouteFits (state store.now.entries) }
    ensures { IfOk result (λ due.
        option_map due_plan due
        ≡ next_by_targets domain.now (state store.now.entries) route.now now) }
{
    let Some(object) = standing(store, Kind::Route, &route.space, &route.name) else {
        return Ok(None);
    };
    let targets = object.body.targets();
    let found = found_all(alloc, store, &route.space, targets)?;
    let resolved = resolve_targets(alloc, route, domain, targets, found.as_slice())?;
    let traffic = Traffic {
        domain,
        route,
        object,
        found: found.as_slice(),
        resolved: &resolved,
    };
    let due = due_by(alloc, store, &traffic, now)?;
    Ok(due)
}

// What is due to the name.
fn look(
    alloc: Global,
    store: &Store<Object>,
    domain: &Text,
    route: &Name,
    now: u64,
) -> Result<Option<Due>, AllocError>
    requires { RouteFits (state store.now.entries) }
    ensures { IfOk result (λ view.
        option_map due_plan view ≡ route_next domain.now (state store.now.entries) route.now now) }
{
    if let Some(due) = orphaned(alloc, store, route)? {
        return Ok(Some(due));
    }
    if let Some(due) = foreign(alloc, store, route)? {
        return Ok(Some(due));
    }
    if let Some(due) = due_to_route(alloc, store, domain, route, now)? {
        return Ok(Some(due));
    }
    let due = pin_spare(alloc, store, route, now)?;
    Ok(due)
}

/// The Route controller, by a domain that is lent.
#[derive(Drop)]
pub struct RouteBy<'a> {
    /// The domain in which the hosts of Routes lie.
    pub domain: &'a Text,
}

impl<'a> Reconciler<Object> for RouteBy<'a> {
    type View = Option<Due>;

    ghost fits = { λ r st now. RouteFits st };

    ghost next = { λ r st name now. route_next r.domain.now st name now };

    ghost means = { option_map due_plan };

    fn look(
        &self,
        alloc: Global,
        store: &Store<Object>,
        name: &Name,
        now: u64,
    ) -> Result<Option<Due>, AllocError> {
        look(alloc, store, self.domain, name, now)
    }

    fn plan(&self, alloc: Global, view: &Option<Due>) -> Result<Option<Plan<Object>>, AllocError> {
        plan_of(alloc, view)
    }

    ghost makeable = { λ r st name now plan e. route_makeable_of r.domain.now st name now plan e };
}

/// The Route controller. It hands on to [`RouteBy`].
#[derive(Drop)]
pub struct RouteRec {
    /// The domain in which the hosts of Routes lie.
    pub domain: Text,
}

impl Reconciler<Object> for RouteRec {
    type View = Option<Due>;

    ghost fits = { λ r st now. RouteFits st };

    ghost next = { λ r st name now. route_next r.domain st name now };

    ghost means = { option_map due_plan };

    fn look(
        &self,
        alloc: Global,
        store: &Store<Object>,
        name: &Name,
        now: u64,
    ) -> Result<Option<Due>, AllocError> {
        let by = RouteBy {
            domain: &self.domain,
        };
        by.look(alloc, store, name, now)
    }

    fn plan(&self, alloc: Global, view: &Option<Due>) -> Result<Option<Plan<Object>>, AllocError> {
        let by = RouteBy {
            domain: &self.domain,
        };
        by.plan(alloc, view)
    }

    ghost makeable = { λ r st name now plan e. route_makeable_of r.domain st name now plan e };
}
