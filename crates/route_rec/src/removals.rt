//! What goes: a Route whose owner is gone, and a Table that isn't its Route's.
ghost use Rattle.std.specs.Prelude.{◌≡◌, option_map, IfOk};
ghost use Rattle.std.specs.Option.{option_copied};
ghost use Rattle.resource_types.specs.Lookups.{state};
ghost use Rattle.control_rules.specs.Standing.{is_table_of};
ghost use Rattle.control_rules.specs.NextRoute.{is_own_table, route_orphaned, table_foreign};
ghost use Rattle.controller_parts.specs.Views.{due_plan};

use controller_parts::{Due, is_orphan, removal_of, standing};
use resource_types::{Body, Kind, Name, Object};
use std::alloc::{AllocError, Global};
use version_store::Store;

/// The Route is removed, where its owner is gone.
pub fn orphaned(
    alloc: Global,
    store: &Store<Object>,
    route: &Name,
) -> Result<Option<Due>, AllocError>
    ensures { IfOk result (λ due.
        option_map due_plan due ≡ route_orphaned (state store.now.entries) route.now) }
{
    let Some(object) = standing(store, Kind::Route, &route.space, &route.name) else {
        return Ok(None);
    };
    if is_orphan(store, object) {
        return Ok(Some(Due::Removal(removal_of(alloc, object, false)?)));
    }
    Ok(None)
}

// Whether it is a Table of the Route's uid.
fn is_table_of(uid: u64, body: &Body) -> bool
    ensures { result ≡ is_table_of uid body.now }
{
    match body {
        Body::Table { route, .. } => *route == uid,
        _ => false,
    }
}

// Whether the Table is the Route's.
fn is_own_table(route: Option<&Object>, table: &Object) -> bool
    ensures { result ≡ is_own_table (option_copied route.entry) table.now }
{
    match route {
        Some(route) => is_table_of(route.meta.stamp.uid, &table.body),
        None => false,
    }
}

/// The Table is removed, where it isn't the Route's.
pub fn foreign(
    alloc: Global,
    store: &Store<Object>,
    route: &Name,
) -> Result<Option<Due>, AllocError>
    ensures { IfOk result (λ due.
        option_map due_plan due ≡ table_foreign (state store.now.entries) route.now) }
{
    let Some(table) = standing(store, Kind::Table, &route.space, &route.name) else {
        return Ok(None);
    };
    let owner = standing(store, Kind::Route, &route.space, &route.name);
    if is_own_table(owner, table) {
        return Ok(None);
    }
    Ok(Some(Due::Removal(removal_of(alloc, table, false)?)))
}
