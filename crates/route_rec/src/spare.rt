//! A Revision loses the Route's pin, once neither the Table nor the Route's status names it.
ghost use Rattle.std.specs.Prelude.{◌≡◌, option_map, IfOk};
ghost use Rattle.std.specs.Option.{option_copied};
ghost use Rattle.resource_types.specs.Objects.{status_of};
ghost use Rattle.resource_types.specs.Lookups.{state};
ghost use Rattle.control_rules.specs.NextRoute.{first_spare, pin_spare};
ghost use Rattle.controller_parts.specs.Views.{due_plan};
ghost use Rattle.route_rec.specs.Spares.{has_pin, has_row, has_target, is_published, is_published_in, is_shown, is_spare_by};

use crate::pins::{is_listed, repinned, without_pin};
use controller_parts::{Due, standing};
use json_tree::{Copied, Text};
use resource_types::{Body, Kind, Name, Object, Row, Target, walk_space};
use std::alloc::{AllocError, Global};
use version_store::Store;

// Whether a target is on the Revision.
fn has_target(targets: &[Target], name: &Text) -> bool
    ensures { result ≡ has_target name.now targets.now }
{
    targets.iter().any(|target| *name == target.revision)
}

// Whether a row is on the Revision.
fn has_row(rows: &[Row], name: &Text) -> bool
    ensures { result ≡ has_row name.now rows.now }
{
    rows.iter().any(|row| *name == row.revision)
}

// Whether the body is a Table's that names the Revision.
fn is_published_in(body: &Body, name: &Text) -> bool
    ensures { result ≡ is_published_in name.now body.now }
{
    match body {
        Body::Table { rows, targets, .. } => {
            has_row(rows.as_slice(), name) || has_target(targets.as_slice(), name)
        }
        _ => false,
    }
}

// Whether the Table names the Revision. One that doesn't stand names none.
fn is_published(table: Option<&Object>, name: &Text) -> bool
    ensures { result ≡ is_published name.now (option_copied table.entry) }
{
    match table {
        Some(table) => is_published_in(&table.body, name),
        None => false,
    }
}

// Whether the status of the body names the Revision.
fn is_shown_in(body: &Body, name: &Text) -> bool
    ensures { result ≡ has_target name.now (status_of body.now).traffic }
{
    match body.status() {
        Some(status) => has_target(status.traffic.as_slice(), name),
        None => false,
    }
}

// Whether the Route's status names the Revision. A Route that doesn't stand names none.
fn is_shown(route: Option<&Object>, name: &Text) -> bool
    ensures { result ≡ is_shown name.now (option_copied route.entry) }
{
    match route {
        Some(route) => is_shown_in(&route.body, name),
        None => false,
    }
}

// Whether it is a Revision of the Route's namespace that has the Route's pin.
fn has_pin(route: &Name, revision: &Object) -> bool
    ensures { result ≡ has_pin route.now revision.now }
{
    revision.is_of(Kind::Revision)
        && revision.key.name.space == route.space
        && is_listed(&route.name, revision.body.pins())
}

// Whether the Revision has the Route's pin, and neither the Table nor the Route names it.
fn is_spare(
    route: &Name,
    table: Option<&Object>,
    object: Option<&Object>,
    revision: &Object,
) -> bool
    ensures { result
        ≡ is_spare_by route.now (option_copied table.entry) (option_copied object.entry)
        revision.now }
{
    if !has_pin(route, revision) {
        return false;
    }
    let name = &revision.key.name.name;
    !is_published(table, name) && !is_shown(object, name)
}

// The first such Revision by name.
fn first_spare<'a>(store: &'a Store<Object>, route: &Name) -> Option<&'a Object>
    ensures { option_copied result ≡ first_spare (state store.now.entries) route.now }
{
    let table = standing(store, Kind::Table, &route.space, &route.name);
    let object = standing(store, Kind::Route, &route.space, &route.name);
    let revisions = walk_space(store, Kind::Revision, route.space.as_str());
    for place in 0..revisions.len() {
        let revision = revisions.at(place);
        if is_spare(route, table, object, revision) {
            return Some(revision);
        }
    }
    None
}

/// A Revision loses the pin that it needs no longer.
pub fn pin_spare(
    alloc: Global,
    store: &Store<Object>,
    route: &Name,
    now: u64,
) -> Result<Option<Due>, AllocError>
    ensures { IfOk result (λ due.
        option_map due_plan due ≡ pin_spare (state store.now.entries) route.now now) }
{
    let Some(revision) = first_spare(store, route) else {
        return Ok(None);
    };
    let pins = without_pin(alloc, revision.body.pins(), &route.name)?;
    Ok(Some(repinned(revision.copy(alloc)?, pins, now)))
}
